ghost use Rattle.std.specs.Prelude.{◌≡◌, Some};
ghost use Rattle.listings.specs.Fills.{filled_of};
ghost use Rattle.listings.specs.Pages.{first_records, first_walk, first_page};
ghost use Rattle.listing_pieces.specs.Pieces.{after_first, page_after};

use listings::{Job, Lines, Page, Stage};
use sets::FixedBitSet;
use walks::first_part;
use whole_walks::{Records, Walk};

// The records before any step.
fn first_records() -> Records
    ensures { result ≡ first_records }
{
    let part = first_part(FixedBitSet { length: 65536 });
    Records {
        one: part,
        two: part,
    }
}

// The page before any line.
#[tactic(auto, unfolding(listings::specs::Pages::first_page))]
pub fn first_page(job: Job) -> Page
    ensures { result ≡ first_page job }
{
    let stage = if job.count { Stage::Last } else { Stage::First };
    Page {
        stage,
        records: first_records(),
        place: 1,
    }
}

#[tactic(auto, unfolding(listings::specs::Pages::first_walk))]
pub(crate) fn first_walk(job: Job) -> Walk
    ensures { result ≡ first_walk job }
{
    if job.compare {
        Walk::Difference
    } else {
        job.walk
    }
}

// What comes after the lines of the first walk.
#[tactic(auto, unfolding(crate::specs::Pieces::after_first))]
pub(crate) fn after_first(job: Job) -> Stage
    ensures { result ≡ after_first job }
{
    if job.compare {
        Stage::Second
    } else {
        Stage::Last
    }
}

// The page after lines: what is left of their walk, or, where that is nothing, the stage that comes then.
#[tactic(auto, unfolding(crate::specs::Pieces::page_after))]
pub(crate) fn page_after(lines: Lines, stage: Stage, then: Stage) -> Page
    ensures { result ≡ page_after (filled_of lines.records lines.place (Some lines)) stage then }
{
    if lines.over {
        return Page {
            stage: then,
            records: first_records(),
            place: lines.place,
        };
    }
    Page {
        stage,
        records: lines.records,
        place: lines.place,
    }
}
