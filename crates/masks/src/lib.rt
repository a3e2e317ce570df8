// A range of positions and its mask in each 64-bit word.
#![tactic(auto)]

mod range_masks;

pub use range_masks::{Masks, range_mask};
