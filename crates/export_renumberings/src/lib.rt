// Entry points of the renumberings, for C (bindings/c/fbs.h): each is a call of the library with that call's contract.
#![tactic(auto)]

mod back_calls;
mod renumbering_calls;
