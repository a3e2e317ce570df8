// Reads a text of offsets in pieces of any cut: the set of its offsets, the line that names each first, and what is said of bad lines and repeats.
#![tactic(auto)]

mod entries;
mod lines;
mod messages;
mod reader;

pub use reader::OffsetReader;
