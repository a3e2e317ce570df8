ghost use Rattle.std.specs.Prelude.{◌&&◌, ◌≡◌, ℕ, ◌*◌, ◌≤◌, length};
ghost use Rattle.word_bits.specs.Counts.{some};
ghost use Rattle.masks.specs.Ranges.{covers};
ghost use Rattle.sets.specs.Refusals.{told_of};
ghost use Rattle.tests.specs.Rules.{contains_all_rule, contains_any_rule, is_full_rule, is_clear_rule};
ghost use Rattle.tests.specs.Helpers.{differs};

use crate::scans::first_other;
use masks::Masks;
use sets::{FixedBitSet, Refusal};

// Whether some bit of the range differs from the bit of `skip` in its place.
fn some_other(words: &[u64], start: usize, end: usize, skip: u64) -> bool
    requires { end ≤ length words.now * 64 }
    ensures { result ≡ some end (λ (p : ℕ). covers start end p && differs words.now skip p) }
{
    let masks = Masks::by_shifts(start, end);
    let first = masks.first_block;
    if masks.end_block <= first {
        return false;
    }
    if (words[first] ^ skip) & masks.first_mask != 0 {
        return true;
    }
    let last = masks.end_block - 1;
    if last <= first {
        return false;
    }
    // `first_other`, which the least member needs, tells this too: one loop goes over whole words.
    if first_other(words, first + 1, last, skip) < last {
        return true;
    }
    (words[last] ^ skip) & masks.last_mask != 0
}

// Whether each position of the range is a member. Asks 1 to 3, then 5.
pub fn contains_all_in_range(
    set: FixedBitSet,
    words: &[u64],
    start: usize,
    end: usize,
) -> Result<bool, Refusal>
    ensures { told_of result ≡ contains_all_rule set words.now start end }
{
    set.check_range(words, start, end)?;
    Ok(!some_other(words, start, end, u64::MAX))
}

// Whether some position of the range is a member. Asks 1 to 3, then 5.
pub fn contains_any_in_range(
    set: FixedBitSet,
    words: &[u64],
    start: usize,
    end: usize,
) -> Result<bool, Refusal>
    ensures { told_of result ≡ contains_any_rule set words.now start end }
{
    set.check_range(words, start, end)?;
    Ok(some_other(words, start, end, 0))
}

// Whether each position of the set is a member. Asks 1 to 3.
pub fn is_full(set: FixedBitSet, words: &[u64]) -> Result<bool, Refusal>
    ensures { told_of result ≡ is_full_rule set words.now }
{
    set.check(words)?;
    Ok(!some_other(words, 0, set.length, u64::MAX))
}

// Whether the set has no member. Asks 1 to 3.
pub fn is_clear(set: FixedBitSet, words: &[u64]) -> Result<bool, Refusal>
    ensures { told_of result ≡ is_clear_rule set words.now }
{
    set.check(words)?;
    Ok(!some_other(words, 0, set.length, 0))
}
