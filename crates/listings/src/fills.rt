ghost use Rattle.std.specs.Prelude.{◌≡◌, ◌^◌, ◌≤◌};
ghost use Rattle.listings.specs.Fills.{Asked, given_of, BatchRight, BatchSure, Sure, filled_of, FilledRight, FilledSure};
ghost use Rattle.listing_lines.specs.Offsets.{offsets_of};

use crate::walk_steps::FileWalk;
use byte_texts::Text;
use listing_lines::Listing;
use next_many::ManyPair;
use sets::Refusal;
use whole_walks::Records;

// The lines of up to 64 offsets of a walk.
fn append_batch(
    text: &mut Text,
    walk: FileWalk<'_>,
    listing: Listing<'_>,
    records: Records,
    place: usize,
) -> Result<ManyPair, Refusal>
    requires { place ≤ 2 ^ 32 }
    ensures buffer { text.new.out.ghost_name ≡ text.old.out.ghost_name }
    ensures right { (given_of records result).number ≡ 0 → BatchRight walk.entry.walk listing.entry (offsets_of walk.entry.words.now) (offsets_of walk.entry.other.now) records place text.old text.new (given_of records result) }
    ensures sure { Asked walk.entry.words.now walk.entry.other.now records → BatchSure walk.entry.words.now walk.entry.other.now (given_of records result) }
{
    let mut offsets = [0u64; 64];
    let many = walk.next_many(records, &mut offsets)?;
    listing.append_lines(text, &offsets[..many.count], place);
    Ok(many)
}

// How many bytes of the buffer are lines (a length, as in `Written`), what is left of the walk then, and whether that is nothing.
#[derive(Clone, Copy)]
pub struct Lines {
    pub length: usize,
    pub records: Records,
    pub place: usize,
    pub over: bool,
}

// Lines from the buffer's start on, while there is room for another batch; none where they are not there whole.
pub fn fill_walk(
    out: &mut [u8],
    walk: FileWalk<'_>,
    listing: Listing<'_>,
    records: Records,
    place: usize,
) -> Option<Lines>
    ensures { FilledRight walk.entry.walk listing.entry (offsets_of walk.entry.words.now) (offsets_of walk.entry.other.now) records place out.new (filled_of records place result) × (Sure walk.entry.walk listing.entry walk.entry.words.now walk.entry.other.now records place → FilledSure walk.entry.words.now walk.entry.other.now (filled_of records place result)) }
{
    let size = out.len();
    let mut text = Text::new(out);
    let mut left = records;
    let mut next = place;
    while 16384 <= size - text.end {
        if 4294967296 < next {
            return None;
        }
        let many = append_batch(&mut text, walk, listing, left, next).ok()?;
        if size <= text.end {
            return None;
        }
        next += many.count;
        // No `From`: it would stand in next_many, which owns `ManyPair`, and this is the one place that asks for it.
        left = Records {
            one: many.one,
            two: many.two,
        };
        if many.count < 64 {
            return Some(Lines {
                length: text.end,
                records: left,
                place: next,
                over: true,
            });
        }
    }
    Some(Lines {
        length: text.end,
        records: left,
        place: next,
        over: false,
    })
}
