ghost use Rattle.std.specs.Prelude.{◌≡◌, ℕ};
ghost use Rattle.sets.specs.Members.{bit_of};
ghost use Rattle.parts.specs.Helpers.{FirstWord, LastWord, selected_word, next_from, prev_from};
ghost use Rattle.parts.specs.Selections.{selected};

use crate::selections::Select;
use crate::words::selected_word;
use word_bits::{leading_zeros, trailing_zeros};

// The first word of first..end that has a selected position.
fn first_word<S: Select>(words: &[u64], other: &[u64], first: usize, end: usize) -> Option<usize>
    ensures { FirstWord (selected_word S.selection words.now other.now) first end result }
{
    (first..end).find(|k| selected_word::<S>(words, other, *k) != 0)
}

// The last of them.
fn last_word<S: Select>(words: &[u64], other: &[u64], first: usize, end: usize) -> Option<usize>
    ensures { LastWord (selected_word S.selection words.now other.now) first end result }
{
    (first..end)
        .rev()
        .find(|k| selected_word::<S>(words, other, *k) != 0)
}

// The smallest selected position from low up to the end of high's word: high is the caller's to ask, so that no word but the first is cut.
pub fn front_selected<S: Select>(
    words: &[u64],
    other: &[u64],
    low: usize,
    high: usize,
) -> Option<usize>
    ensures { result ≡ next_from (λ (p : ℕ). selected S.selection (bit_of words.now p) (bit_of other.now p)) low high }
{
    let first = low / 64;
    let from = low % 64;
    let word = selected_word::<S>(words, other, first) & (u64::MAX << from);
    if word != 0 {
        return Some(first * 64 + trailing_zeros(word));
    }
    if high <= low {
        return None;
    }
    let end = (high - 1) / 64 + 1;
    let k = first_word::<S>(words, other, first + 1, end)?;
    Some(k * 64 + trailing_zeros(selected_word::<S>(words, other, k)))
}

// The largest selected position below high, down to the start of low's word: low is the caller's to ask.
pub fn back_selected<S: Select>(
    words: &[u64],
    other: &[u64],
    low: usize,
    high: usize,
) -> Option<usize>
    ensures { result ≡ prev_from (λ (p : ℕ). selected S.selection (bit_of words.now p) (bit_of other.now p)) low high }
{
    if high <= low {
        return None;
    }
    let last = (high - 1) / 64;
    let upto = 63 - (high - 1) % 64;
    let word = selected_word::<S>(words, other, last) & (u64::MAX >> upto);
    if word != 0 {
        return Some(last * 64 + (63 - leading_zeros(word)));
    }
    let k = last_word::<S>(words, other, low / 64, last)?;
    Some(k * 64 + (63 - leading_zeros(selected_word::<S>(words, other, k))))
}
