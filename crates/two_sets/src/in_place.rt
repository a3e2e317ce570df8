ghost use Rattle.std.specs.Prelude.{◌≡◌, ℕ, ◌≤◌, max, length};
ghost use Rattle.blocks.specs.Sweeps.{swept};
ghost use Rattle.sets.specs.Members.{read};
ghost use Rattle.sets.specs.Outcomes.{outcome};
ghost use Rattle.sets.specs.Refusals.{edited_of};
ghost use Rattle.operations.specs.Operations.{joined_word, padded};
ghost use Rattle.two_sets.specs.Combined.{growing, keeping};
ghost use Rattle.two_sets.specs.Rules.{growing_with, keeping_with, union_with_rule, symmetric_difference_with_rule, intersect_with_rule, difference_with_rule};

use operations::{Operation, join_common, join_first_alone, join_second_alone};
use sets::{Checked, FixedBitSet, Refusal, blocks_of, check_new};

// The words of a result of `total` words, from the first set's `blocks` words and all of the second's.
pub(crate) fn join_in_place(
    words: &mut [u64],
    blocks: usize,
    other: &[u64],
    total: usize,
    operation: Operation,
)
    requires { (blocks ≤ total) × (total ≤ max blocks (length other.now)) × (total ≤ length words.old) }
    ensures { words.new ≡ swept 0 total (λ (k w : ℕ). joined_word operation (padded blocks words.old k) (padded (length other.now) other.now k)) words.old }
{
    let common = blocks.min(other.len());
    join_common(words, other, common, operation);
    join_first_alone(words, common, blocks, operation);
    join_second_alone(words, other, blocks, total, operation);
}

// The length is kept.
fn keep_with(
    a: FixedBitSet,
    words: &mut [u64],
    b: FixedBitSet,
    other: &[u64],
    operation: Operation,
) -> Result<FixedBitSet, Refusal>
    ensures { outcome (edited_of a result) words.new ≡ keeping_with a words.old b other.now (keeping operation (read words.old a) (read other.now b)) }
{
    a.check(words)?;
    let second = Checked::new(b, other)?;
    let blocks = blocks_of(a.length);
    join_in_place(words, blocks, second.words, blocks, operation);
    Ok(a)
}

// The length becomes the larger of the two.
fn grow_with(
    a: FixedBitSet,
    words: &mut [u64],
    b: FixedBitSet,
    other: &[u64],
    operation: Operation,
) -> Result<FixedBitSet, Refusal>
    ensures { outcome (edited_of a result) words.new ≡ growing_with a words.old b other.now (growing operation (read words.old a) (read other.now b)) }
{
    a.check(words)?;
    let second = Checked::new(b, other)?;
    let length = a.length.max(b.length);
    check_new(length, words)?;
    join_in_place(
        words,
        blocks_of(a.length),
        second.words,
        blocks_of(length),
        operation,
    );
    Ok(FixedBitSet::new(length))
}

// The first set becomes the union of the two, of the larger length. Asks 1 to 3 of both sets, then 7 of that length.
pub fn union_with(
    a: FixedBitSet,
    words: &mut [u64],
    b: FixedBitSet,
    other: &[u64],
) -> Result<FixedBitSet, Refusal>
    ensures { outcome (edited_of a result) words.new ≡ union_with_rule a words.old b other.now }
{
    grow_with(a, words, b, other, Operation::Union)
}

// The first set becomes the symmetric difference of the two, of the larger length. Asks 1 to 3 of both sets, then 7 of that length.
pub fn symmetric_difference_with(
    a: FixedBitSet,
    words: &mut [u64],
    b: FixedBitSet,
    other: &[u64],
) -> Result<FixedBitSet, Refusal>
    ensures { outcome (edited_of a result) words.new ≡ symmetric_difference_with_rule a words.old b other.now }
{
    grow_with(a, words, b, other, Operation::SymmetricDifference)
}

// The first set keeps the members that the second has too. Asks 1 to 3 of both sets.
pub fn intersect_with(
    a: FixedBitSet,
    words: &mut [u64],
    b: FixedBitSet,
    other: &[u64],
) -> Result<FixedBitSet, Refusal>
    ensures { outcome (edited_of a result) words.new ≡ intersect_with_rule a words.old b other.now }
{
    keep_with(a, words, b, other, Operation::Intersection)
}

// The first set keeps the members that the second does not have. Asks 1 to 3 of both sets.
pub fn difference_with(
    a: FixedBitSet,
    words: &mut [u64],
    b: FixedBitSet,
    other: &[u64],
) -> Result<FixedBitSet, Refusal>
    ensures { outcome (edited_of a result) words.new ≡ difference_with_rule a words.old b other.now }
{
    keep_with(a, words, b, other, Operation::Difference)
}
