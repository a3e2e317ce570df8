// Document 01's "Sets at their edges", document 02's calls and the Rust's documentation examples through the public calls: a line for each case, with what was called, what came,
// and whether it is what the document says.
#![tactic(auto)]

mod checked_list;
mod position_lists;
mod report;
mod rust_examples;
mod walk_list;

use report::Report;
use std::io::Print;

fn run<R: Print>(rt: &R) {
    let mut report = Report::new(rt);
    checked_list::run(&mut report);
    walk_list::run(&mut report);
    position_lists::run(&mut report);
    rust_examples::run(&mut report);
    report.total();
}

fn main(rt: HostRuntime) {
    run(&rt);
}
