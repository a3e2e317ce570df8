// Members and non-members of a range, and the bits of words, counted.
#![tactic(auto)]

mod counts;

pub use counts::{count_ones, count_zeroes, ones_of_words};
