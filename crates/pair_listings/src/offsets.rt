ghost use Rattle.std.specs.Prelude.{◌≡◌, length, IfOk};
ghost use Rattle.sets.specs.Questions.{questions};
ghost use Rattle.sets.specs.Refusals.{number_of};
ghost use Rattle.two_set_counts.specs.Lists.{ones_list};
ghost use Rattle.listing_lines.specs.Offsets.{all_offsets, offsets_of};

use sets::{FixedBitSet, Refusal};
use whole_walks::{Walk, walk_count};

// The words of a set of 65,536 bits that passes questions 1 to 3. `sets::Checked` has its length beside its words; here it is 65,536. A listing has two sets (listing_pieces): as such a pair this one would be asked twice, and as two of these it would share one call of `check`, with the type in a crate below both.
#[derive(Clone, Copy)]
pub(crate) struct Offsets<'a> {
    pub words: &'a [u64],
    pub ghost sound: { questions all_offsets words.now ≡ 0 },
}

impl<'a> Offsets<'a> {
    // Asks 1 to 3.
    pub fn new(words: &'a [u64]) -> Result<Offsets<'a>, Refusal>
        ensures number { number_of result ≡ questions all_offsets words.entry.now }
        ensures same { IfOk result (λ offsets. offsets.words.now ≡ words.entry.now) }
    {
        FixedBitSet { length: 65536 }.check(words)?;
        Ok(Offsets { words })
    }

    // How many members there are.
    pub fn size(self) -> usize
        ensures { result ≡ length (ones_list (offsets_of self.entry.words.now)) }
    {
        let set = FixedBitSet { length: 65536 };
        // The count refuses no set that passes its questions, as this one does.
        walk_count(set, self.words, set, self.words, Walk::Ones).unwrap_or(0)
    }
}
