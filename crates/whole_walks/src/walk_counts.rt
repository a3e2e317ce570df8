ghost use Rattle.std.specs.Prelude.{◌≡◌};
ghost use Rattle.sets.specs.Refusals.{counted_of};
ghost use Rattle.whole_walks.specs.Rules.{walk_count_rule};

use crate::walk::Walk;
use range_counts::count_ones;
use sets::{FixedBitSet, Refusal};
use two_set_counts::{
    difference_count, intersection_count, symmetric_difference_count, union_count,
};

// The count that belongs to a walk.
pub fn walk_count(
    a: FixedBitSet,
    words: &[u64],
    b: FixedBitSet,
    other: &[u64],
    walk: Walk,
) -> Result<usize, Refusal>
    ensures { counted_of result ≡ walk_count_rule a words.now b other.now walk }
{
    match walk {
        Walk::Ones => count_ones(a, words, 0, a.length),
        Walk::Intersection => intersection_count(a, words, b, other),
        Walk::Difference => difference_count(a, words, b, other),
        Walk::Union => union_count(a, words, b, other),
        Walk::SymmetricDifference => symmetric_difference_count(a, words, b, other),
    }
}
