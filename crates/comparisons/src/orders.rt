ghost use Rattle.std.specs.Prelude.{◌≡◌, ℕ, ◌*◌, length};
ghost use Rattle.std.specs.Bool.{beq};
ghost use Rattle.word_bits.specs.Counts.{all};
ghost use Rattle.sets.specs.CheckedSets.{members};
ghost use Rattle.sets.specs.Members.{bit_of};
ghost use Rattle.sets.specs.Refusals.{told_of};
ghost use Rattle.comparisons.specs.Orders.{order, words_order};
ghost use Rattle.comparisons.specs.Compares.{order_number, compared_of};
ghost use Rattle.comparisons.specs.Rules.{eq_rule, cmp_rule};

use sets::{Checked, FixedBitSet, Refusal};
use std::cmp::Ordering;

// An order as C takes it, with its number: it is 0 for equal, 1 for below, 2 for above, and 0 where refused.
#[repr(C)]
#[derive(Clone, Copy)]
pub struct Compared {
    pub number: u64,
    pub order: u64,
}

// Whether no word differs, of as many words. Slices: that a word fits in 64 bits is not known of a slice that is a field.
fn same(words: &[u64], other: &[u64]) -> bool
    ensures { length words.now ≡ length other.now
        → result ≡ all (length words.now * 64) (λ (p : ℕ). beq (bit_of words.now p) (bit_of other.now p)) }
{
    words == other
}

// The order of as many words as unsigned numbers: the first that differ decide. Slices, as in the one above.
fn words_order(words: &[u64], other: &[u64]) -> Ordering
    ensures { length words.now ≡ length other.now
        → order_number result ≡ words_order 0 (length words.now) (bit_of words.now) (bit_of other.now) }
{
    words.cmp(other)
}

// The lengths decide, then the words.
fn order_of(a: Checked, b: Checked) -> Ordering
    ensures { order_number result ≡ order (members a.entry) (members b.entry) }
{
    a.length
        .cmp(&b.length)
        .then_with(|| words_order(a.words, b.words))
}

// Whether the two sets have the same length and the same members. Asks 1 to 3 of both sets.
pub fn eq(a: FixedBitSet, words: &[u64], b: FixedBitSet, other: &[u64]) -> Result<bool, Refusal>
    ensures { told_of result ≡ eq_rule a words.now b other.now }
{
    let (a, b) = Checked::both(a, words, b, other)?;
    Ok(a.length == b.length && same(a.words, b.words))
}

// The order of the two sets: length first, then words from word 0 upwards. Asks 1 to 3 of both sets.
pub fn cmp(
    a: FixedBitSet,
    words: &[u64],
    b: FixedBitSet,
    other: &[u64],
) -> Result<Ordering, Refusal>
    ensures { compared_of result ≡ cmp_rule a words.now b other.now }
{
    let (a, b) = Checked::both(a, words, b, other)?;
    Ok(order_of(a, b))
}

// The answer of `cmp` as a record, with its number.
impl From<Result<Ordering, Refusal>> for Compared {
    ghost from_gives = { λ a r. r ≡ compared_of a };

    fn from(answer: Result<Ordering, Refusal>) -> Compared {
        match answer {
            Ok(order) => Compared {
                number: 0,
                order: match order {
                    Ordering::Less => 1,
                    Ordering::Equal => 0,
                    Ordering::Greater => 2,
                },
            },
            Err(refusal) => Compared {
                number: refusal.into(),
                order: 0,
            },
        }
    }
}
