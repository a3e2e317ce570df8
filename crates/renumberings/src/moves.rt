ghost use Rattle.std.specs.Prelude.{◌≡◌};
ghost use Rattle.sets.specs.Members.{set_of, empty};
ghost use Rattle.sets.specs.Outcomes.{outcome};
ghost use Rattle.sets.specs.Refusals.{edited_of};
ghost use Rattle.renumber_steps.specs.Pairs.{sided, swapped};
ghost use Rattle.renumber_steps.specs.Rules.{renumber_rule};

use crate::passes::move_members;
use crate::questions::ask_pairs;
use fresh_sets::with_capacity;
use renumber_steps::{AsListed, Pair, Side, Swapped};
use sets::{Checked, FixedBitSet, Refusal, check_new};

fn renumber_sided<S: Side>(
    set: FixedBitSet,
    words: &[u64],
    pairs: &[Pair],
    bits: usize,
    out: &mut [u64],
) -> Result<FixedBitSet, Refusal>
    ensures { outcome (edited_of (set_of (empty 0)) result) out.new ≡ renumber_rule set words.now (sided S.back pairs.now) bits out.old }
{
    let checked = Checked::new(set, words)?;
    check_new(bits, out)?;
    ask_pairs::<S>(checked, pairs, bits)?;
    let renumbered = with_capacity(bits, out)?;
    move_members::<S>(checked, pairs, out);
    Ok(renumbered)
}

// The set of `bits` bits with exactly the new offset of each member. Asks 1 to 3 of the old set, 6 and 7 of the new one, then 10, 11, 4 and 12 of the pairs;
// only then is a word written.
#[tactic(auto, using(renumber_steps::proofs::PairListLaws::sided_same))]
pub fn renumber(
    set: FixedBitSet,
    words: &[u64],
    pairs: &[Pair],
    bits: usize,
    out: &mut [u64],
) -> Result<FixedBitSet, Refusal>
    ensures { outcome (edited_of (set_of (empty 0)) result) out.new ≡ renumber_rule set words.now pairs.now bits out.old }
{
    renumber_sided::<AsListed>(set, words, pairs, bits, out)
}

// `renumber` with every pair swapped.
pub fn renumber_back(
    set: FixedBitSet,
    words: &[u64],
    pairs: &[Pair],
    bits: usize,
    out: &mut [u64],
) -> Result<FixedBitSet, Refusal>
    ensures { outcome (edited_of (set_of (empty 0)) result) out.new ≡ renumber_rule set words.now (swapped pairs.now) bits out.old }
{
    renumber_sided::<Swapped<AsListed>>(set, words, pairs, bits, out)
}
