ghost use Rattle.std.specs.Prelude.{◌≡◌};
ghost use Rattle.byte_texts.specs.Growth.{Appended};
ghost use Rattle.sets.specs.Questions.{both_questions};
ghost use Rattle.listing_lines.specs.Pieces.{piece_of};
ghost use Rattle.listing_lines.specs.Offsets.{all_offsets, offsets_of};
ghost use Rattle.listings.specs.Pages.{total_of, last_text};
ghost use Rattle.listing_pieces.specs.Pieces.{sizes_of, MissingOf, PieceRight, Able, PieceSure, PieceWell};

use crate::pages::{after_first, first_walk, page_after};
use crate::set_pairs::SetPair;
use byte_texts::Text;
use listing_lines::{Listing, Missing, Places};
use listings::{FileWalk, Job, Page, Stage, Written, fill_walk};
use verdict_lines::{Sizes, Verdict, append_complete, append_count};
use whole_walks::Walk;

fn sizes_of(pair: SetPair<'_>) -> Sizes
    ensures { result ≡ sizes_of (offsets_of pair.entry.words.now) (offsets_of pair.entry.other.now) }
{
    let swapped = pair.swapped();
    Sizes {
        name: pair.walk_size(Walk::Ones) as u64,
        other: swapped.walk_size(Walk::Ones) as u64,
        extra: pair.walk_size(Walk::Difference) as u64,
        lacking: swapped.walk_size(Walk::Difference) as u64,
    }
}

// What is written: a job, the sets of its files, and their names as they are shown.
#[derive(Clone, Copy)]
struct Writing<'a> {
    job: Job,
    pair: SetPair<'a>,
    name: &'a [u8],
    table: &'a [u8],
}

impl<'a> Writing<'a> {
    // How many lines there are in all.
    fn total(self) -> usize
        ensures { result ≡ total_of self.entry.job (offsets_of self.entry.pair.words.now) (offsets_of self.entry.pair.other.now) }
    {
        let pair = self.pair;
        if self.job.compare {
            return pair.walk_size(Walk::Difference) + pair.swapped().walk_size(Walk::Difference);
        }
        pair.walk_size(self.job.walk)
    }

    fn places(self) -> Places
        ensures sheet { result.sheet ≡ self.entry.job.sheet }
        ensures total { result.total ≡ total_of self.entry.job (offsets_of self.entry.pair.words.now) (offsets_of self.entry.pair.other.now) }
    {
        Places {
            sheet: self.job.sheet,
            total: self.total(),
        }
    }

    // Of a comparison, the names of the files of its first lines.
    fn missing(self) -> Option<Missing<'a>>
        ensures { MissingOf self.entry.job self.entry.name.now self.entry.table.now result }
    {
        if self.job.compare {
            return Some(Missing {
                has: self.name,
                lacks: self.table,
            });
        }
        None
    }

    fn first_lines(self, page: Page, out: &mut [u8]) -> Option<Written>
        requires { page.stage ≡ Stage.First }
        ensures { PieceWell self.entry.job self.entry.name.now self.entry.table.now self.entry.pair.words.now self.entry.pair.other.now page out.new (piece_of page result) }
    {
        let listing = Listing {
            places: self.places(),
            missing: self.missing(),
        };
        let walk = FileWalk {
            walk: first_walk(self.job),
            words: self.pair.words,
            other: self.pair.other,
        };
        let lines = fill_walk(out, walk, listing, page.records, page.place)?;
        Some(Written {
            length: lines.length,
            page: page_after(lines, Stage::First, after_first(self.job)),
        })
    }

    // As the first ones, with the files swapped. What the two share is `fill_walk` and `page_after`: a function of both would have a contract that says again what those say, and each stage would be proved from it as it is now.
    fn second_lines(self, page: Page, out: &mut [u8]) -> Option<Written>
        requires { page.stage ≡ Stage.Second }
        ensures { PieceWell self.entry.job self.entry.name.now self.entry.table.now self.entry.pair.words.now self.entry.pair.other.now page out.new (piece_of page result) }
    {
        let listing = Listing {
            places: self.places(),
            missing: Some(Missing {
                has: self.table,
                lacks: self.name,
            }),
        };
        let walk = FileWalk {
            walk: Walk::Difference,
            words: self.pair.other,
            other: self.pair.words,
        };
        let lines = fill_walk(out, walk, listing, page.records, page.place)?;
        Some(Written {
            length: lines.length,
            page: page_after(lines, Stage::Second, Stage::Last),
        })
    }

    // The last line: the verdict, the count alone, or that the list is complete.
    fn append_last(self, text: &mut Text)
        ensures { Appended text.old text.new (last_text self.entry.job self.entry.name.now self.entry.table.now (offsets_of self.entry.pair.words.now) (offsets_of self.entry.pair.other.now)) }
    {
        if self.job.compare {
            let verdict = Verdict {
                name: self.name,
                other: self.table,
                sizes: sizes_of(self.pair),
            };
            return verdict.append(text, self.job.several);
        }
        let size = self.pair.walk_size(self.job.walk) as u64;
        if self.job.count {
            return append_count(text, size);
        }
        append_complete(text, size);
    }

    // As that of a list of pairs (pair_listings): one function for both would take what appends the line as a closure, with a contract of its own.
    fn last_line(self, page: Page, out: &mut [u8]) -> Option<Written>
        requires { page.stage ≡ Stage.Last }
        ensures { PieceWell self.entry.job self.entry.name.now self.entry.table.now self.entry.pair.words.now self.entry.pair.other.now page out.new (piece_of page result) }
    {
        let mut text = Text::new(out);
        self.append_last(&mut text);
        let over = Page {
            stage: Stage::Over,
            ..page
        };
        Written::new(&text, over)
    }
}

// The next piece of what a command writes, from the sets of its files and their names as they are shown; none where it could not be written.
pub fn next_piece(
    job: Job,
    words: &[u64],
    other: &[u64],
    name: &[u8],
    table: &[u8],
    page: Page,
    out: &mut [u8],
) -> Option<Written>
    ensures { PieceRight job name.now table.now (offsets_of words.now) (offsets_of other.now) page out.new (piece_of page result) × (both_questions all_offsets words.now all_offsets other.now ≡ 0 → Able job name.now table.now (offsets_of words.now) (offsets_of other.now) page out.new → PieceSure job (offsets_of words.now) (offsets_of other.now) (piece_of page result)) }
{
    let pair = SetPair::new(words, other).ok()?;
    let writing = Writing {
        job,
        pair,
        name,
        table,
    };
    // The stage is asked once a piece: a page is a value that is kept between calls, so no closure can stand for it.
    match page.stage {
        Stage::First => writing.first_lines(page, out),
        Stage::Second => writing.second_lines(page, out),
        Stage::Last => writing.last_line(page, out),
        Stage::Over => Some(Written { length: 0, page }),
    }
}
