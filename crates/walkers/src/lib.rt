// A walker over the members of a set that keeps the set's words beside its record.
#![tactic(auto)]

mod walker;

pub use walker::{Ones, walker_step};
