ghost use Rattle.std.specs.Prelude.{◌≡◌};
ghost use Rattle.listings.specs.Stages.{is_over};

use listing_lines::Progress;
use whole_walks::{Records, Walk};

// What is written of two files: a comparison, or the list of a walk; on a sheet, or the counts alone; one of several tables. No enum holds `walk` or `several` alone: `first_walk`, `total_of` and `last_text` each ask `compare` and then the one field, and each would have to take the enum apart.
#[derive(Clone, Copy)]
pub struct Job {
    pub walk: Walk,
    pub compare: bool,
    pub sheet: bool,
    pub count: bool,
    pub several: bool,
}

// Where the writing stands: the lines of the first walk, those of the second, the last line, or nothing more. A list of pairs has one walk, so its stages are other ones.
#[derive(Clone, Copy)]
pub enum Stage {
    First,
    Second,
    Last,
    Over,
}

impl Progress for Stage {
    ghost over = { is_over };

    fn is_over(&self) -> bool {
        matches!(self, Stage::Over)
    }
}

pub type Page = listing_lines::Page<Stage, Records>;

pub type Written = listing_lines::Written<Stage, Records>;
