// What a set shows of itself: its length, whether it has no bits, its own words.
#![tactic(auto)]

mod views;

pub use views::{as_slice, as_slice_number, is_empty, len};
