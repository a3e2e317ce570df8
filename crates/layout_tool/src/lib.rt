// The layout tool around its proved core: the arguments, the commands and what they write. Data goes to one writer, everything else to another.
#![tactic(auto)]

mod arguments;
mod commands;
mod comparing;
mod help;
mod listing;
mod options;
mod program;
mod renumbering;
mod tool;

pub use program::run_program;
pub use tool::{Status, run};
