// The last lines that the layout tool writes, each into a lent buffer: that a list is complete, a count, and verdicts.
#![tactic(auto)]

mod last_lines;

pub use last_lines::{Sizes, Tables, Verdict, append_complete, append_count};
