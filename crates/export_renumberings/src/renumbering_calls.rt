ghost use Rattle.std.specs.Prelude.{◌≡◌};
ghost use Rattle.sets.specs.Outcomes.{outcome};
ghost use Rattle.renumber_steps.specs.Pairs.{swapped};
ghost use Rattle.renumber_steps.specs.Rules.{renumber_rule};

use renumber_steps::Pair;
use renumberings::{renumber, renumber_back};
use sets::{Edited, FixedBitSet};

#[unsafe(no_mangle)]
pub extern "C" fn fbs_renumber(
    set: FixedBitSet,
    words: &[u64],
    pairs: &[Pair],
    bits: usize,
    out: &mut [u64],
) -> Edited
    ensures { outcome result out.new ≡ renumber_rule set words.now pairs.now bits out.old }
{
    Edited::new(FixedBitSet::new(0), renumber(set, words, pairs, bits, out))
}

#[unsafe(no_mangle)]
pub extern "C" fn fbs_renumber_back(
    set: FixedBitSet,
    words: &[u64],
    pairs: &[Pair],
    bits: usize,
    out: &mut [u64],
) -> Edited
    ensures { outcome result out.new ≡ renumber_rule set words.now (swapped pairs.now) bits out.old }
{
    Edited::new(
        FixedBitSet::new(0),
        renumber_back(set, words, pairs, bits, out),
    )
}
