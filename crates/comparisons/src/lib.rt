// Tests of two sets, their equality and order, and the words of the longer.
#![tactic(auto)]

mod longer_set;
mod orders;
mod relations;
mod search;

pub use longer_set::{longer, longer_number};
pub use orders::{Compared, cmp, eq};
pub use relations::{is_disjoint, is_subset, is_superset, subset_by_words};
