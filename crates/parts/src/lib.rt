// A part of a walk: its next position at the front and at the back, found word by word.
#![tactic(auto)]

mod records;
mod search;
mod selections;
mod steps;
mod words;

pub use records::{End, Step};
pub use search::{back_selected, front_selected};
pub use selections::{Difference, Intersection, Ones, Select, Zeroes};
pub use steps::step_selected;
