// Steps of the walks of one part, with the record by value, and steps that ask nothing. The rules of every step are here.
#![tactic(auto)]

mod answers;
mod one_set;
mod pairs;
mod rows;

pub use answers::{PairStep, first_part};
pub use one_set::{ones_next, ones_next_back, zeroes_next};
pub use pairs::{difference_next, difference_next_back, intersection_next, intersection_next_back};
pub use rows::{RowStep, step_row, step_rows};
