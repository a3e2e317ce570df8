ghost use Rattle.std.specs.Prelude.{◌≡◌, ℕ, min, length, get_or};
ghost use Rattle.blocks.specs.Sweeps.{swept};
ghost use Rattle.operations.specs.Operations.{joined_word};

use crate::join::{Difference, Intersection, Join, SymmetricDifference, Union};
use crate::operation::Operation;
use blocks::{change_blocks, copy_blocks};

// The words below `end` that both slices have become the join of the two: the loop of the four operations.
fn join_words<S: Join>(words: &mut [u64], other: &[u64], end: usize)
    ensures { words.new ≡ swept 0 (min end (length other.now)) (λ (k w : ℕ). joined_word S.operation w (get_or other.now k 0)) words.old }
{
    // By the index: nothing is known of words that an adapter of `iter_mut` writes.
    for k in 0..end.min(other.len()).min(words.len()) {
        words[k] = S::word(words[k], other[k]);
    }
}

// The words first..end, where the second set has none.
fn join_first<S: Join>(words: &mut [u64], first: usize, end: usize)
    ensures { words.new ≡ swept first end (λ (k w : ℕ). joined_word S.operation w 0) words.old }
{
    if !S::first_alone() {
        change_blocks(words, first, end, 0, 0);
    }
}

// The words first..end, where the first set has none.
fn join_second<S: Join>(words: &mut [u64], other: &[u64], first: usize, end: usize)
    ensures { words.new ≡ swept first (min end (length other.now)) (λ (k w : ℕ). joined_word S.operation 0 (get_or other.now k 0)) words.old }
{
    if S::second_alone() {
        copy_blocks(words, other, first, end);
    } else {
        change_blocks(words, first, end.min(other.len()), 0, 0);
    }
}

// The words below `end` that both slices have become the join of the two. Asks nothing: for the calls of this library, which have asked.
pub fn join_common(words: &mut [u64], other: &[u64], end: usize, operation: Operation)
    ensures { words.new ≡ swept 0 (min end (length other.now)) (λ (k w : ℕ). joined_word operation w (get_or other.now k 0)) words.old }
{
    match operation {
        Operation::Union => join_words::<Union>(words, other, end),
        Operation::Intersection => join_words::<Intersection>(words, other, end),
        Operation::Difference => join_words::<Difference>(words, other, end),
        Operation::SymmetricDifference => join_words::<SymmetricDifference>(words, other, end),
    }
}

// The words first..end, where the second set has none. Asks nothing, as the one above.
pub fn join_first_alone(words: &mut [u64], first: usize, end: usize, operation: Operation)
    ensures { words.new ≡ swept first end (λ (k w : ℕ). joined_word operation w 0) words.old }
{
    match operation {
        Operation::Union => join_first::<Union>(words, first, end),
        Operation::Intersection => join_first::<Intersection>(words, first, end),
        Operation::Difference => join_first::<Difference>(words, first, end),
        Operation::SymmetricDifference => join_first::<SymmetricDifference>(words, first, end),
    }
}

// The words first..end, where the first set has none. Asks nothing, as the ones above.
pub fn join_second_alone(
    words: &mut [u64],
    other: &[u64],
    first: usize,
    end: usize,
    operation: Operation,
)
    ensures { words.new ≡ swept first (min end (length other.now)) (λ (k w : ℕ). joined_word operation 0 (get_or other.now k 0)) words.old }
{
    match operation {
        Operation::Union => join_second::<Union>(words, other, first, end),
        Operation::Intersection => join_second::<Intersection>(words, other, first, end),
        Operation::Difference => join_second::<Difference>(words, other, first, end),
        Operation::SymmetricDifference => {
            join_second::<SymmetricDifference>(words, other, first, end)
        }
    }
}
