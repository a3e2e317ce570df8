ghost use Rattle.std.specs.Prelude.{◌≡◌, length};
ghost use Rattle.whole_walks.specs.Walks.{first_row, second_row};
ghost use Rattle.next_many.specs.Calls.{next_many_of, next_many_pair_of};
ghost use Rattle.next_many.specs.Many.{front_pairs};
ghost use Rattle.next_many.specs.Rules.{many_pair_outcome, written_pair};
ghost use Rattle.listings.specs.Fills.{Asked, given_of};
ghost use Rattle.listing_lines.specs.Offsets.{offsets_of};

use next_many::{
    Many, ManyPair, difference_next_many, intersection_next_many, ones_next_many,
    symmetric_difference_next_many, union_next_many,
};
use sets::{FixedBitSet, Part, Refusal};
use whole_walks::{Records, Walk};

// A walk of one part: the second record passes through.
fn alone(many: Result<Many, Refusal>, two: Part) -> Result<ManyPair, Refusal>
    ensures { (one : Part) → next_many_pair_of one two result ≡ record { number = (next_many_of one many).number; count = (next_many_of one many).count; one = (next_many_of one many).part; two = two } }
{
    let many = many?;
    Ok(ManyPair {
        count: many.count,
        one: many.part,
        two,
    })
}

// A walk over the sets of two files, each by its words.
#[derive(Clone, Copy)]
pub struct FileWalk<'a> {
    pub walk: Walk,
    pub words: &'a [u64],
    pub other: &'a [u64],
}

impl<'a> FileWalk<'a> {
    // The next offsets, as many as the buffer has words.
    pub(crate) fn next_many(
        self,
        records: Records,
        offsets: &mut [u64],
    ) -> Result<ManyPair, Refusal>
        ensures { ((given_of records result).number ≡ 0 → many_pair_outcome (given_of records result) offsets.new ≡ written_pair offsets.old (front_pairs (length offsets.old) (first_row self.entry.walk (offsets_of self.entry.words.now) (offsets_of self.entry.other.now)) (second_row self.entry.walk (offsets_of self.entry.words.now) (offsets_of self.entry.other.now)) records.one records.two)) × (Asked self.entry.words.now self.entry.other.now records → (given_of records result).number ≡ 0) }
    {
        let FileWalk { walk, words, other } = self;
        let Records { one, two } = records;
        let set = FixedBitSet { length: 65536 };
        // Asked once for as many offsets as the buffer has words; each walk is another call.
        match walk {
            Walk::Ones => alone(ones_next_many(set, words, one, offsets), two),
            Walk::Intersection => alone(
                intersection_next_many(set, words, set, other, one, offsets),
                two,
            ),
            Walk::Difference => alone(
                difference_next_many(set, words, set, other, one, offsets),
                two,
            ),
            Walk::Union => union_next_many(set, words, set, other, one, two, offsets),
            Walk::SymmetricDifference => {
                symmetric_difference_next_many(set, words, set, other, one, two, offsets)
            }
        }
    }
}
