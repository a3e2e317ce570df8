ghost use Rattle.std.specs.Prelude.{◌≡◌};
ghost use Rattle.sets.specs.Questions.{both_questions};
ghost use Rattle.sets.specs.Refusals.{number_of};
ghost use Rattle.sets.specs.Rules.{slice_part};
ghost use Rattle.comparisons.specs.Rules.{longer_rule};

use set_views::as_slice;
use sets::{FixedBitSet, Refusal};

// The words of the longer set, as a part of its own slice: the second's for equal lengths. Asks 1 to 3 of both sets. The specification has the part and its number as two calls.
pub fn longer<'a>(a: FixedBitSet, words: &'a [u64], b: FixedBitSet, other: &'a [u64]) -> &'a [u64]
    ensures { slice_part result ≡ longer_rule a words.entry b other.entry }
{
    // Not by the words of a `Checked`: it promises their members, and not where they start, which the clause tells.
    match longer_number(a, words, b, other) {
        Ok(()) => {
            if b.length < a.length {
                as_slice(a, words)
            } else {
                as_slice(b, other)
            }
        }
        Err(_) => &words[..0],
    }
}

// The number of `longer` on the same inputs: 1 to 3 of both sets.
pub fn longer_number(
    a: FixedBitSet,
    words: &[u64],
    b: FixedBitSet,
    other: &[u64],
) -> Result<(), Refusal>
    ensures { number_of result ≡ both_questions a words.now b other.now }
{
    a.check(words)?;
    b.check(other)
}
