// What a command writes, and the lines of a walk, as many as a lent buffer has room for.
#![tactic(auto)]

mod fills;
mod jobs;
mod walk_steps;

pub use fills::{Lines, fill_walk};
pub use jobs::{Job, Page, Stage, Written};
pub use walk_steps::FileWalk;
