// A set of bits over lent 64-bit words: what it is, the questions before any work and the answers. The rules of fresh sets and of views are here too.
#![tactic(auto)]

mod answers;
mod checked;
mod checking;
mod checks;
mod conversions;
mod fixed_bit_set;
mod membership;
mod refusal;
mod sizes;

pub use answers::{Counted, Edited, Part, Told};
pub use checked::Checked;
pub use checks::check_new;
pub use fixed_bit_set::FixedBitSet;
pub use membership::member;
pub use refusal::Refusal;
pub use sizes::blocks_of;
