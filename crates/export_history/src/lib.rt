// The entry point of the history run, for C (bindings/c/fbs.h): the walk is a number.
#![tactic(auto)]

mod history_calls;
