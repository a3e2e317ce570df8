// Reads a text of pairs of an old and a new offset in pieces of any cut: a table of each side, and what is said of bad lines.
#![tactic(auto)]

mod lines;
mod messages;
mod naming;
mod pairs;
mod reader;

pub use reader::PairReader;
