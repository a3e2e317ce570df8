ghost use Rattle.std.specs.Prelude.{not, ◌&&◌, ◌≡◌, ℕ, ◌*◌, length};
ghost use Rattle.word_bits.specs.Counts.{some};
ghost use Rattle.sets.specs.CheckedSets.{members};
ghost use Rattle.sets.specs.Members.{bit_of};
ghost use Rattle.sets.specs.Refusals.{told_of};
ghost use Rattle.comparisons.specs.Relations.{disjoint};
ghost use Rattle.comparisons.specs.Rules.{is_disjoint_rule, is_subset_rule, is_superset_rule};

use crate::search::first_joined;
use sets::{Checked, FixedBitSet, Refusal};
use tests::first_other;

// Whether no member is in both: beyond the words that both have there is none.
fn disjoint_by_words(a: Checked, b: Checked) -> bool
    ensures { result ≡ disjoint (members a.entry) (members b.entry) }
{
    let shared = a.words.len().min(b.words.len());
    shared <= first_joined(a.words, b.words, |x, y| x & y)
}

// Whether each bit of the first words is set in the others: word by word where both have words, and beyond them none.
// Slices: that a word fits in 64 bits is known of a slice that is a parameter, and not of one that is a field.
pub fn subset_by_words(words: &[u64], other: &[u64]) -> bool
    ensures { result ≡ not (some (length words.now * 64) (λ (p : ℕ). bit_of words.now p && not (bit_of other.now p))) }
{
    let shared = words.len().min(other.len());
    if first_joined(words, other, |x, y| x & !y) < shared {
        return false;
    }
    words.len() <= first_other(words, shared, words.len(), 0)
}

// Whether the two sets have no common member. Asks 1 to 3 of both sets.
pub fn is_disjoint(
    a: FixedBitSet,
    words: &[u64],
    b: FixedBitSet,
    other: &[u64],
) -> Result<bool, Refusal>
    ensures { told_of result ≡ is_disjoint_rule a words.now b other.now }
{
    let (a, b) = Checked::both(a, words, b, other)?;
    Ok(disjoint_by_words(a, b))
}

// Whether each member of the first set is in the second. Asks 1 to 3 of both sets.
pub fn is_subset(
    a: FixedBitSet,
    words: &[u64],
    b: FixedBitSet,
    other: &[u64],
) -> Result<bool, Refusal>
    ensures { told_of result ≡ is_subset_rule a words.now b other.now }
{
    let (a, b) = Checked::both(a, words, b, other)?;
    Ok(subset_by_words(a.words, b.words))
}

// Whether each member of the second set is in the first. Asks 1 to 3 of both sets, in the order of the arguments.
pub fn is_superset(
    a: FixedBitSet,
    words: &[u64],
    b: FixedBitSet,
    other: &[u64],
) -> Result<bool, Refusal>
    ensures { told_of result ≡ is_superset_rule a words.now b other.now }
{
    let (a, b) = Checked::both(a, words, b, other)?;
    Ok(subset_by_words(b.words, a.words))
}
