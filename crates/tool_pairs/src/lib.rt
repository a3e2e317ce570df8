// A file of pairs beside a file of offsets: what is said of offsets with no pair, and lines of pairs, written piece by piece.
#![tactic(auto)]

mod paired;
mod writing;

pub use paired::all_paired;
pub use writing::{write_back, write_pairs};
