// Many positions of a walk in one call: as many front steps as the lent buffer has words.
#![tactic(auto)]

mod answers;
mod fill;
mod one_part;
mod two_parts;

pub use answers::{Many, ManyPair, NextMany, NextManyPair};
pub use one_part::{
    difference_next_many, intersection_next_many, ones_next_many, zeroes_next_many,
};
pub use two_parts::{symmetric_difference_next_many, union_next_many};
