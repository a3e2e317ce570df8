// One 64-bit word: its counts, its lowest set bit, and the masks of its lowest bits.
#![tactic(auto)]

mod counts;
mod last_bit;
mod low_masks;

pub use counts::{count_ones, leading_zeros, trailing_zeros};
pub use last_bit::{LastBit, last_positive_bit_and_unset};
pub use low_masks::low_mask;
