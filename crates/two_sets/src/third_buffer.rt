#![tactic(auto, unfolding(sets::specs::Members::read))]

ghost use Rattle.std.specs.Prelude.{◌≡◌, ◌≤◌, max};
ghost use Rattle.sets.specs.Members.{read, set_of, empty};
ghost use Rattle.sets.specs.Outcomes.{outcome};
ghost use Rattle.sets.specs.Refusals.{edited_of};
ghost use Rattle.two_sets.specs.Combined.{combined};
ghost use Rattle.two_sets.specs.Rules.{third_buffer, bitand_rule, bitor_rule, bitxor_rule};

use crate::in_place::join_in_place;
use blocks::copy_blocks;
use operations::Operation;
use sets::{Checked, FixedBitSet, Refusal, blocks_of, check_new};

// As many of the first set's words as the result has are copied, then joined in place with the second's.
fn join_third(
    a: FixedBitSet,
    words: &[u64],
    b: FixedBitSet,
    other: &[u64],
    out: &mut [u64],
    bits: usize,
    operation: Operation,
) -> Result<FixedBitSet, Refusal>
    requires { bits ≤ max a.length b.length }
    ensures { outcome (edited_of (set_of (empty 0)) result) out.new ≡ third_buffer a words.now b other.now bits out.old (combined operation bits (read words.now a) (read other.now b)) }
{
    let (one, two) = Checked::both(a, words, b, other)?;
    check_new(bits, out)?;
    let total = blocks_of(bits);
    let copied = one.words.len().min(total);
    copy_blocks(out, one.words, 0, copied);
    join_in_place(out, copied, two.words, total, operation);
    Ok(FixedBitSet::new(bits))
}

// `a & b`: the intersection into a third buffer, of the smaller length. Asks 1 to 3 of both sets, then 7 of that length.
pub fn bitand(
    a: FixedBitSet,
    words: &[u64],
    b: FixedBitSet,
    other: &[u64],
    out: &mut [u64],
) -> Result<FixedBitSet, Refusal>
    ensures { outcome (edited_of (set_of (empty 0)) result) out.new ≡ bitand_rule a words.now b other.now out.old }
{
    let length = a.length.min(b.length);
    join_third(a, words, b, other, out, length, Operation::Intersection)
}

// `a | b`: the union into a third buffer, of the larger length. Asks 1 to 3 of both sets, then 7 of that length.
pub fn bitor(
    a: FixedBitSet,
    words: &[u64],
    b: FixedBitSet,
    other: &[u64],
    out: &mut [u64],
) -> Result<FixedBitSet, Refusal>
    ensures { outcome (edited_of (set_of (empty 0)) result) out.new ≡ bitor_rule a words.now b other.now out.old }
{
    let length = a.length.max(b.length);
    join_third(a, words, b, other, out, length, Operation::Union)
}

// `a ^ b`: the symmetric difference into a third buffer, of the larger length. Asks 1 to 3 of both sets, then 7 of that length.
pub fn bitxor(
    a: FixedBitSet,
    words: &[u64],
    b: FixedBitSet,
    other: &[u64],
    out: &mut [u64],
) -> Result<FixedBitSet, Refusal>
    ensures { outcome (edited_of (set_of (empty 0)) result) out.new ≡ bitxor_rule a words.now b other.now out.old }
{
    let length = a.length.max(b.length);
    join_third(
        a,
        words,
        b,
        other,
        out,
        length,
        Operation::SymmetricDifference,
    )
}
