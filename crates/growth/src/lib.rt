// Edits of the whole set: no member left, and a longer set.
#![tactic(auto)]

mod whole_set;

pub use whole_set::{clear, grow, grow_and_insert};
