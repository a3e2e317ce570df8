// Lent words: one of them, and a change or a copy of some of them.
#![tactic(auto)]

mod sweeps;

pub use sweeps::{block, change_blocks, copy_blocks};
