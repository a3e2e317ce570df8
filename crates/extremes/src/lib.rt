// The least and the greatest member.
#![tactic(auto)]

mod by_words;

pub use by_words::{maximum, minimum};
