// What an edit does to a bit, to a word and to a word of lent words.
#![tactic(auto)]

mod change;

pub use change::{Change, change_block, change_word};
