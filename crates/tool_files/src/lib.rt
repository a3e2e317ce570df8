// Files read through the handles that the system gives, and what is said of them; texts written whole.
#![tactic(auto)]

mod messages;
mod offset_loading;
mod opening;
mod pair_loading;
mod reads;
mod reports;
mod streams;

pub use messages::{EBADF, Fragment, Trouble, fail, incomplete, not_listed, tell, write_report};
pub use offset_loading::load;
pub use pair_loading::load_pairs;
pub use streams::{write_pieces, write_told, write_whole};
