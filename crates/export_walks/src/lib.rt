// Entry points of the walks: steps, and many positions in one call, for C (bindings/c/fbs.h): each is a call of the library with that call's contract.
#![tactic(auto)]

mod next_many_calls;
mod pair_walk_calls;
mod walk_calls;
