// The five walks that have steps at both ends, whole: their steps from the first records on, and their counts.
#![tactic(auto)]

mod walk;
mod walk_counts;
mod whole;

pub use walk::{UnknownWalk, Walk};
pub use walk_counts::walk_count;
pub use whole::{Records, walk_whole};
