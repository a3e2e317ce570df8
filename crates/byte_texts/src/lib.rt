// Texts written one after the other into a lent buffer. What the buffer has no room for is left out: a text that ends before the buffer's last byte is there whole.
#![tactic(auto)]

mod names;
mod texts;

pub use names::ShownName;
pub use texts::Text;
