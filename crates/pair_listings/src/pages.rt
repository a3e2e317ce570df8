ghost use Rattle.std.specs.Prelude.{◌≡◌};
ghost use Rattle.byte_texts.specs.Growth.{Appended};
ghost use Rattle.sets.specs.Questions.{questions};
ghost use Rattle.listing_lines.specs.Offsets.{all_offsets, offsets_of};
ghost use Rattle.pair_listings.specs.Tables.{entry_of};
ghost use Rattle.pair_listings.specs.Pages.{last_text, first_page};
ghost use Rattle.listing_lines.specs.Pieces.{piece_of};
ghost use Rattle.pair_listings.specs.Pieces.{page_after, PieceRight, Able, PieceSure, PieceWell};

use crate::jobs::{Job, Page, Stage, Written};
use crate::lines::{append_pair_lines, append_pairs_complete};
use crate::offsets::Offsets;
use byte_texts::Text;
use listing_lines::Places;
use next_many::ones_next_many;
use sets::{FixedBitSet, Part};
use verdict_lines::append_count;
use walks::first_part;

// The page before any line.
#[tactic(auto, unfolding(crate::specs::Pages::first_page))]
pub fn first_page(job: Job) -> Page
    ensures { result ≡ first_page job }
{
    let stage = if job.count { Stage::Last } else { Stage::Lines };
    Page {
        stage,
        records: first_part(FixedBitSet { length: 65536 }),
        place: 1,
    }
}

// The page after `count` lines: fewer than 128 are the last ones.
#[tactic(auto, unfolding(crate::specs::Pieces::page_after))]
fn page_after(part: Part, place: usize, count: usize) -> Page
    ensures { result ≡ page_after part place count }
{
    let stage = if count < 128 {
        Stage::Last
    } else {
        Stage::Lines
    };
    Page {
        stage,
        records: part,
        place,
    }
}

// What is written: a job, a set, and a table of pairs.
#[derive(Clone, Copy)]
struct Writing<'a> {
    job: Job,
    set: Offsets<'a>,
    table: &'a [u64],
}

impl<'a> Writing<'a> {
    // The next 128 lines, or those that are left.
    fn next_lines(self, page: Page, out: &mut [u8]) -> Option<Written>
        requires { page.stage ≡ Stage.Lines }
        ensures { PieceWell self.entry.job (entry_of self.entry.table.now) self.entry.set.words.now page out.new (piece_of page result) }
    {
        let places = Places {
            sheet: self.job.sheet,
            total: self.set.size(),
        };
        let mut offsets = [0u64; 128];
        let all = FixedBitSet { length: 65536 };
        let many = ones_next_many(all, self.set.words, page.records, &mut offsets).ok()?;
        if 4294967296 < page.place {
            return None;
        }
        let mut text = Text::new(out);
        append_pair_lines(
            &mut text,
            &offsets[..many.count],
            self.table,
            places,
            page.place,
        );
        let next = page_after(many.part, page.place + many.count, many.count);
        Written::new(&text, next)
    }

    // The last line: the count alone, or that the list is complete.
    fn append_last(self, text: &mut Text)
        ensures { Appended text.old text.new (last_text self.entry.job (offsets_of self.entry.set.words.now)) }
    {
        let total = self.set.size() as u64;
        if self.job.count {
            append_count(text, total);
        } else {
            append_pairs_complete(text, total);
        }
    }

    // As that of a list of offsets (listing_pieces): one function for both would take what appends the line as a closure, with a contract of its own.
    fn last_line(self, page: Page, out: &mut [u8]) -> Option<Written>
        requires { page.stage ≡ Stage.Last }
        ensures { PieceWell self.entry.job (entry_of self.entry.table.now) self.entry.set.words.now page out.new (piece_of page result) }
    {
        let mut text = Text::new(out);
        self.append_last(&mut text);
        let over = Page {
            stage: Stage::Over,
            ..page
        };
        Written::new(&text, over)
    }
}

// The next piece of the pairs of a set's members, from the set and a table; none where it could not be written.
pub fn next_piece(
    job: Job,
    words: &[u64],
    table: &[u64],
    page: Page,
    out: &mut [u8],
) -> Option<Written>
    ensures { PieceRight job (entry_of table.now) (offsets_of words.now) page out.new (piece_of page result) × (questions all_offsets words.now ≡ 0 → Able (offsets_of words.now) page out.new → PieceSure (offsets_of words.now) (piece_of page result)) }
{
    let set = Offsets::new(words).ok()?;
    let writing = Writing { job, set, table };
    // The stage is asked once a piece: a page is a value that is kept between calls, so no closure can stand for it.
    match page.stage {
        Stage::Lines => writing.next_lines(page, out),
        Stage::Last => writing.last_line(page, out),
        Stage::Over => Some(Written { length: 0, page }),
    }
}
