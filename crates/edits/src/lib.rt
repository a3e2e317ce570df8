// Edits of a position and of a list of positions. The rules of every edit are here, those of ranges and of the whole set too.
#![tactic(auto)]

mod lists;
mod positions;

pub use lists::insert_all;
pub use positions::{Replaced, copy_bit, insert, put, remove, set, toggle};
