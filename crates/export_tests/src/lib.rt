// Entry points of words, ranges, tests and counts of one set and of two, for C (bindings/c/fbs.h): each is a call of the library with that call's contract.
#![tactic(auto)]

mod query_calls;
mod two_set_calls;
mod word_calls;
