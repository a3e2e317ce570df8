ghost use Rattle.std.specs.Prelude.{◌≡◌};
ghost use Rattle.pair_listings.specs.Stages.{is_over};

use listing_lines::Progress;
use sets::Part;

// What is written of a set and a table of pairs: on a sheet, or the count alone. There is no walk to choose, no comparison and no second table, as in a job of two files.
#[derive(Clone, Copy)]
pub struct Job {
    pub sheet: bool,
    pub count: bool,
}

// Where the writing stands: the lines, the last line, or nothing more. A listing of two files has lines of two walks, so its stages are other ones.
#[derive(Clone, Copy)]
pub enum Stage {
    Lines,
    Last,
    Over,
}

impl Progress for Stage {
    ghost over = { is_over };

    fn is_over(&self) -> bool {
        matches!(self, Stage::Over)
    }
}

pub type Page = listing_lines::Page<Stage, Part>;

pub type Written = listing_lines::Written<Stage, Part>;
