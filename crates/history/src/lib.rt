// A whole history: two fresh sets, a list of calls on them, a walk with any mix of steps, and its count.
#![tactic(auto)]

mod ran;
mod run;

pub use ran::{Ran, Run};
pub use run::run_history;
