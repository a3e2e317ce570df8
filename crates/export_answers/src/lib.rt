// Answers as C takes them, for the entry points that bindings/c/fbs.h lists.
#![tactic(auto)]

mod answers;

pub use answers::{FbsFound, FbsLonger, FbsSlice, FbsStepped, FbsSteppedPair, number};
