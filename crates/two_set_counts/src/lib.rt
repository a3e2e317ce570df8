// The sizes of the walks' lists over two sets.
#![tactic(auto)]

mod common;
mod pair_counts;
mod rests;

pub use pair_counts::{
    difference_count, intersection_count, symmetric_difference_count, union_count,
};
