// Steps of the walks of two parts, `union` and `symmetric_difference`, with both records by value.
#![tactic(auto)]

mod two_parts;

pub use two_parts::{
    symmetric_difference_next, symmetric_difference_next_back, union_next, union_next_back,
};
