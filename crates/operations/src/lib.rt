// What two bits make, and lent words joined by it.
#![tactic(auto)]

mod join;
mod joins;
mod operation;

pub use join::{Difference, Intersection, Join, SymmetricDifference, Union};
pub use joins::{join_common, join_first_alone, join_second_alone};
pub use operation::Operation;
