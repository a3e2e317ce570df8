// Tests of one set. The rules of the counts of a range, of `minimum` and of `maximum` are here too.
#![tactic(auto)]

mod positions;
mod ranges;
mod scans;

pub use positions::contains;
pub use ranges::{contains_all_in_range, contains_any_in_range, is_clear, is_full};
pub use scans::first_other;
