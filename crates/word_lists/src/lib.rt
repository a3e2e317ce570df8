// Lists of numbers: a part of one, and whether two are the same.
#![tactic(auto)]

mod lists;

pub use lists::{part, same};
