ghost use Rattle.std.specs.Prelude.{◌≡◌};
ghost use Rattle.sets.specs.CheckedSets.{members};
ghost use Rattle.sets.specs.Refusals.{counted_of};
ghost use Rattle.two_set_counts.specs.Helpers.{joint_ones};
ghost use Rattle.two_set_counts.specs.Rules.{union_count_rule, intersection_count_rule, difference_count_rule, symmetric_difference_count_rule};

use crate::common::ones_common;
use crate::rests::ones_beyond;
use operations::{Difference, Intersection, Join, SymmetricDifference, Union};
use sets::{Checked, FixedBitSet, Refusal};

// How many members the two sets joined have: those in the words of both, then those beyond.
fn joint_count<S: Join>(a: Checked, b: Checked) -> usize
    ensures { result ≡ joint_ones S.operation (members a.entry) (members b.entry) }
{
    ones_common::<S>(a, b) + ones_beyond::<S>(a, b)
}

// How many positions the walk `union` gives. Asks 1 to 3 of both sets.
pub fn union_count(
    a: FixedBitSet,
    words: &[u64],
    b: FixedBitSet,
    other: &[u64],
) -> Result<usize, Refusal>
    ensures { counted_of result ≡ union_count_rule a words.now b other.now }
{
    let (a, b) = Checked::both(a, words, b, other)?;
    Ok(joint_count::<Union>(a, b))
}

// How many positions the walk `intersection` gives. Asks 1 to 3 of both sets.
pub fn intersection_count(
    a: FixedBitSet,
    words: &[u64],
    b: FixedBitSet,
    other: &[u64],
) -> Result<usize, Refusal>
    ensures { counted_of result ≡ intersection_count_rule a words.now b other.now }
{
    let (a, b) = Checked::both(a, words, b, other)?;
    Ok(joint_count::<Intersection>(a, b))
}

// How many positions the walk `difference` gives. Asks 1 to 3 of both sets.
pub fn difference_count(
    a: FixedBitSet,
    words: &[u64],
    b: FixedBitSet,
    other: &[u64],
) -> Result<usize, Refusal>
    ensures { counted_of result ≡ difference_count_rule a words.now b other.now }
{
    let (a, b) = Checked::both(a, words, b, other)?;
    Ok(joint_count::<Difference>(a, b))
}

// How many positions the walk `symmetric_difference` gives. Asks 1 to 3 of both sets.
pub fn symmetric_difference_count(
    a: FixedBitSet,
    words: &[u64],
    b: FixedBitSet,
    other: &[u64],
) -> Result<usize, Refusal>
    ensures { counted_of result ≡ symmetric_difference_count_rule a words.now b other.now }
{
    let (a, b) = Checked::both(a, words, b, other)?;
    Ok(joint_count::<SymmetricDifference>(a, b))
}
