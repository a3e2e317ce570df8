// Two sets joined by an operation on their bits, in place and into a third buffer.
#![tactic(auto)]

mod in_place;
mod third_buffer;

pub use in_place::{difference_with, intersect_with, symmetric_difference_with, union_with};
pub use third_buffer::{bitand, bitor, bitxor};
