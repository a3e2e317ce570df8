// What a line of a text of pairs is: nothing, an old offset and a new one, the last line of a list, or no line that may stand there.
#![tactic(auto)]

mod lines;
mod pair;

pub use lines::parse_pair;
pub use pair::Pair;
