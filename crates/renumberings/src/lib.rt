// A set moved to another layout, by a list of pairs of an old and a new offset: the functions that read the list.
#![tactic(auto)]

mod answers;
mod finds;
mod moves;
mod passes;
mod questions;
mod restores;

pub use moves::{renumber, renumber_back};
pub use restores::renumber_and_back;
