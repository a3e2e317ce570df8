// What the tool writes, piece by piece into a lent buffer, and whether two files are the same.
#![tactic(auto)]

mod pages;
mod set_pairs;
mod verdicts;
mod writing;

pub use pages::first_page;
pub use verdicts::same_offsets;
pub use writing::next_piece;
