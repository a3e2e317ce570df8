// A text that is read in pieces, line by line: the bytes of the line that is not ended, what is counted of its lines, and what is said of a bad one.
#![tactic(auto)]

mod bytes;
mod file_report;
mod numbers;
mod open_line;
mod open_lines;
mod places;
mod readers;
mod reasons;
mod tally;

pub use bytes::{body_of, starts_with_mark};
pub use file_report::FileReport;
pub use numbers::more;
pub use open_line::OpenLine;
pub use places::Place;
pub use readers::LineReader;
pub use reasons::Reason;
pub use tally::Tally;
