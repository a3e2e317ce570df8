ghost use Rattle.std.specs.Prelude.{◌≡◌};
ghost use Rattle.sets.specs.Questions.{questions};
ghost use Rattle.sets.specs.Refusals.{number_of, told_of, counted_of};
ghost use Rattle.sets.specs.Rules.{len_rule, is_empty_rule, slice_part, as_slice_rule};

use sets::{FixedBitSet, Refusal, blocks_of};

// The length in bits. Asks 1 to 3.
pub fn len(set: FixedBitSet, words: &[u64]) -> Result<usize, Refusal>
    ensures { counted_of result ≡ len_rule set words.now }
{
    set.check(words)?;
    Ok(set.length)
}

// Whether the set has no bits, members or not. Asks 1 to 3.
pub fn is_empty(set: FixedBitSet, words: &[u64]) -> Result<bool, Refusal>
    ensures { told_of result ≡ is_empty_rule set words.now }
{
    set.check(words)?;
    Ok(set.length == 0)
}

// The words of the set, as a part of the lent slice: the empty part where 1 to 3 refuse. The specification has the part and its number as two calls.
pub fn as_slice(set: FixedBitSet, words: &[u64]) -> &[u64]
    ensures { slice_part result ≡ as_slice_rule set words.entry }
{
    // Not by the words of a `Checked`: it promises their members, and not where they start, which the clause tells.
    match set.check(words) {
        Ok(()) => &words[..blocks_of(set.length)],
        Err(_) => &words[..0],
    }
}

// The number of `as_slice` on the same inputs.
pub fn as_slice_number(set: FixedBitSet, words: &[u64]) -> Result<(), Refusal>
    ensures { number_of result ≡ questions set words.now }
{
    set.check(words)
}
