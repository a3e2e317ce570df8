// A list of editing calls on two sets, run one after the other.
#![tactic(auto)]

mod call;
mod one_call;
mod replays;

pub use replays::replay;
