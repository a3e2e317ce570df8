// Entry points of fresh sets, views, edits and joins, for C (bindings/c/fbs.h): each is a call of the library with that call's contract.
#![tactic(auto)]

mod edit_calls;
mod join_calls;
mod view_calls;
