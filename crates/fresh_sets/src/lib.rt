// Fresh sets: with no members, and from blocks.
#![tactic(auto)]

mod fresh;

pub use fresh::{with_capacity, with_capacity_and_blocks};
