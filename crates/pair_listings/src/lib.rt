// What the tool makes of a set and a table of pairs, and what it writes of them, piece by piece into a lent buffer. The public calls take the words and the table side by side, as their contracts name them; `next_piece` makes a struct of both anew for each piece.
#![tactic(auto)]

mod jobs;
mod lines;
mod moves;
mod offsets;
mod pages;
mod unpaired;

pub use jobs::{Job, Page, Stage, Written};
pub use lines::append_unpaired;
pub use moves::{move_members, named_set};
pub use pages::{first_page, next_piece};
pub use unpaired::{count_unpaired, first_unpaired, is_unpaired};
