// Edits of a range of positions.
#![tactic(auto)]

mod covered;
mod ranges;

pub use ranges::{insert_range, remove_range, set_range, toggle_range};
