// The lines of offsets that the layout tool writes into a lent buffer, one offset a line. What every line of the tool is stands here, and what a text is that is written piece by piece.
#![tactic(auto)]

mod lines;
mod pages;

pub use lines::{Listing, Missing, Places};
pub use pages::{Page, Progress, Written};
