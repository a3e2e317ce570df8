// What a line of a text of offsets is: nothing, an offset, the last line of a list, or no line that may stand there.
// Its scans are there for other texts of numbers too.
#![tactic(auto)]

mod entry;
mod fault_texts;
mod items;
mod last_lines;
mod lines;
mod numbers;
mod scans;

pub use entry::{Entry, Fault};
pub use items::Items;
pub use last_lines::said_number;
pub use lines::{offset_of, parse_by, parse_line};
pub use numbers::read_number;
pub use scans::{Digits, has_return, is_void, read_digits, skip_blanks, without_return};
