use crate::report::Report;
use edits::insert_all;
use sets::FixedBitSet;
use std::io::Print;

// `insert_all` on {2}, L = 70, in three words.
fn listed<R: Print>(
    report: &mut Report<'_, R>,
    text: &str,
    positions: &[u64],
    number: u64,
    first: u64,
    second: u64,
) {
    let mut words: [u64; 3] = [0x4, 0, 9];
    let set = FixedBitSet::new(70);
    let answer = insert_all(set, &mut words, positions);
    report.edited(text, set, answer, &words, number, 70, &[first, second, 9]);
}

// A set with a stray bit refuses an empty list too.
fn stray<R: Print>(report: &mut Report<'_, R>, positions: &[u64]) {
    let mut words: [u64; 1] = [0x8];
    let set = FixedBitSet::new(3);
    let answer = insert_all(set, &mut words, positions);
    report.edited(
        "   C-11: L = 3, word 0 is 8: insert_all of an empty list",
        set,
        answer,
        &words,
        3,
        3,
        &[0x8],
    );
}

// C-11: all are inserted, or none.
pub fn run<R: Print>(report: &mut Report<'_, R>) {
    listed(
        report,
        "   C-11: L = 70, {2}: insert_all 69, 0, 69",
        &[69, 0, 69],
        0,
        0x5,
        0x20,
    );
    listed(
        report,
        "   C-11: L = 70, {2}: insert_all 70, 0, 69",
        &[70, 0, 69],
        4,
        0x4,
        0,
    );
    listed(
        report,
        "   C-11: L = 70, {2}: insert_all 0, 70, 69",
        &[0, 70, 69],
        4,
        0x4,
        0,
    );
    listed(
        report,
        "   C-11: L = 70, {2}: insert_all 0, 69, 70",
        &[0, 69, 70],
        4,
        0x4,
        0,
    );
    listed(
        report,
        "   C-11: L = 70, {2}: insert_all 2^64 - 1",
        &[u64::MAX],
        4,
        0x4,
        0,
    );
    let none: [u64; 0] = [];
    listed(
        report,
        "   C-11: L = 70, {2}: insert_all of an empty list",
        &none,
        0,
        0x4,
        0,
    );
    stray(report, &none);
}
