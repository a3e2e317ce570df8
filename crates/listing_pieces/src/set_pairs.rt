ghost use Rattle.std.specs.Prelude.{◌≡◌, length, IfOk};
ghost use Rattle.sets.specs.Questions.{both_questions};
ghost use Rattle.sets.specs.Refusals.{number_of};
ghost use Rattle.whole_walks.specs.Walks.{walk_list};
ghost use Rattle.listing_lines.specs.Offsets.{all_offsets, offsets_of};

use sets::{FixedBitSet, Refusal};
use whole_walks::{Walk, walk_count};

// The words of two sets of 65,536 bits that pass questions 1 to 3. `sets::Checked` has its length beside its words; here it is 65,536 for both.
#[derive(Clone, Copy)]
pub(crate) struct SetPair<'a> {
    pub words: &'a [u64],
    pub other: &'a [u64],
    pub ghost sound: { both_questions all_offsets words.now all_offsets other.now ≡ 0 },
}

impl<'a> SetPair<'a> {
    // Asks 1 to 3 of the first set, then of the second.
    pub fn new(words: &'a [u64], other: &'a [u64]) -> Result<SetPair<'a>, Refusal>
        ensures number { number_of result ≡ both_questions all_offsets words.entry.now all_offsets other.entry.now }
        ensures same { IfOk result (λ pair. (pair.words.now ≡ words.entry.now) × (pair.other.now ≡ other.entry.now)) }
    {
        let set = FixedBitSet { length: 65536 };
        set.check(words)?;
        set.check(other)?;
        Ok(SetPair { words, other })
    }

    // The second set, and then the first.
    pub fn swapped(self) -> SetPair<'a>
        ensures { (result.words.now ≡ self.entry.other.now) × (result.other.now ≡ self.entry.words.now) }
    {
        SetPair {
            words: self.other,
            other: self.words,
        }
    }

    // How many offsets a walk has.
    pub fn walk_size(self, walk: Walk) -> usize
        ensures { result ≡ length (walk_list walk (offsets_of self.entry.words.now) (offsets_of self.entry.other.now)) }
    {
        let set = FixedBitSet { length: 65536 };
        // The count refuses no pair of sets that pass their questions, as these do.
        walk_count(set, self.words, set, self.other, walk).unwrap_or(0)
    }
}
