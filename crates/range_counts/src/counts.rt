ghost use Rattle.std.specs.Prelude.{◌&&◌, ◌≡◌, ℕ, ◌*◌, ◌≤◌, min, length};
ghost use Rattle.word_bits.specs.Counts.{count};
ghost use Rattle.masks.specs.Ranges.{covers};
ghost use Rattle.sets.specs.Members.{bit_of};
ghost use Rattle.sets.specs.Refusals.{counted_of};
ghost use Rattle.tests.specs.Rules.{count_ones_rule, count_zeroes_rule};

use masks::Masks;
use sets::{FixedBitSet, Refusal};

// How many bits of the first 1,024 words are set, which is as many words as a set has.
pub fn ones_of_words(words: &[u64]) -> usize
    ensures { result ≡ count (min (length words.now) 1024 * 64) (bit_of words.now) }
{
    let words = &words[..words.len().min(1024)];
    words.iter().map(|word| word_bits::count_ones(*word)).sum()
}

// How many bits of the range are set.
fn ones_of(words: &[u64], start: usize, end: usize) -> usize
    requires { (end ≤ length words.now * 64) × (end ≤ 65536) }
    ensures { result ≡ count end (λ (p : ℕ). covers start end p && bit_of words.now p) }
{
    let masks = Masks::by_shifts(start, end);
    let first = masks.first_block;
    if masks.end_block <= first {
        return 0;
    }
    let last = masks.end_block - 1;
    let head = word_bits::count_ones(words[first] & masks.first_mask);
    if last <= first {
        return head;
    }
    let middle = ones_of_words(&words[first + 1..last]);
    head + middle + word_bits::count_ones(words[last] & masks.last_mask)
}

// How many positions of the range are members. Asks 1 to 3, then 5.
pub fn count_ones(
    set: FixedBitSet,
    words: &[u64],
    start: usize,
    end: usize,
) -> Result<usize, Refusal>
    ensures { counted_of result ≡ count_ones_rule set words.now start end }
{
    set.check_range(words, start, end)?;
    Ok(ones_of(words, start, end))
}

// How many positions of the range are no members. Asks 1 to 3, then 5.
pub fn count_zeroes(
    set: FixedBitSet,
    words: &[u64],
    start: usize,
    end: usize,
) -> Result<usize, Refusal>
    ensures { counted_of result ≡ count_zeroes_rule set words.now start end }
{
    set.check_range(words, start, end)?;
    Ok((end - start) - ones_of(words, start, end))
}
