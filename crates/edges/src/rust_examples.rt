use crate::report::Report;
use comparisons::eq;
use edits::insert;
use extremes::{maximum, minimum};
use fresh_sets::{with_capacity, with_capacity_and_blocks};
use range_edits::insert_range;
use set_views::{is_empty, len};
use sets::{FixedBitSet, Refusal};
use std::io::Print;
use tests::{is_clear, is_full};

// What stands beside the refusal of a fresh set.
const NONE: FixedBitSet = FixedBitSet { length: 0 };

fn blocks<R: Print>(report: &mut Report<'_, R>) {
    let mut words: [u64; 1] = [9];
    let answer = with_capacity_and_blocks(4, &[4], &mut words);
    report.edited(
        "   Rust: with_capacity_and_blocks of 4 bits from 4",
        NONE,
        answer,
        &words,
        0,
        4,
        &[4],
    );
    let answer = with_capacity_and_blocks(4, &[0xF4], &mut words);
    report.edited(
        "   with_capacity_and_blocks of 4 bits from 0xF4",
        NONE,
        answer,
        &words,
        0,
        4,
        &[4],
    );
}

// `len` and `is_empty`.
fn lengths<R: Print>(report: &mut Report<'_, R>) {
    let mut words: [u64; 1] = [7];
    let answer = with_capacity(10, &mut words);
    let set = answer.unwrap_or(NONE);
    report.edited(
        "   Rust: with_capacity(10)",
        NONE,
        answer,
        &words,
        0,
        10,
        &[0],
    );
    report.counted("   Rust: with_capacity(10): len", len(set, &words), 0, 10);
    report.told(
        "   Rust: with_capacity(10): is_empty",
        is_empty(set, &words),
        0,
        false,
    );
    let mut words: [u64; 1] = [7];
    let answer = with_capacity(0, &mut words);
    let set = answer.unwrap_or(NONE);
    report.edited(
        "   Rust: with_capacity(0)",
        NONE,
        answer,
        &words,
        0,
        0,
        &[7],
    );
    report.told(
        "   Rust: with_capacity(0): is_empty",
        is_empty(set, &words),
        0,
        true,
    );
}

// `insert` into a set of ten bits.
fn inserted<R: Print>(
    report: &mut Report<'_, R>,
    text: &str,
    set: FixedBitSet,
    words: &mut [u64],
    bit: usize,
    expected: u64,
) {
    let answer = insert(set, words, bit);
    report.edited(text, set, answer, words, 0, 10, &[expected]);
}

// `is_clear` and `minimum`.
fn least<R: Print>(report: &mut Report<'_, R>) {
    let mut words: [u64; 1] = [7];
    let set = with_capacity(10, &mut words).unwrap_or(NONE);
    report.told(
        "   Rust: with_capacity(10): is_clear",
        is_clear(set, &words),
        0,
        true,
    );
    report.found(
        "   Rust: with_capacity(10): minimum",
        minimum(set, &words),
        0,
        None,
    );
    inserted(
        report,
        "   Rust: with_capacity(10), insert(2)",
        set,
        &mut words,
        2,
        0x4,
    );
    report.told("   Rust: {2}: is_clear", is_clear(set, &words), 0, false);
    report.found("   Rust: {2}: minimum", minimum(set, &words), 0, Some(2));
    inserted(report, "   Rust: {2}, insert(8)", set, &mut words, 8, 0x104);
    report.found("   Rust: {2, 8}: minimum", minimum(set, &words), 0, Some(2));
}

// `maximum`.
fn greatest<R: Print>(report: &mut Report<'_, R>) {
    let mut words: [u64; 1] = [7];
    let set = with_capacity(10, &mut words).unwrap_or(NONE);
    report.found(
        "   Rust: with_capacity(10): maximum",
        maximum(set, &words),
        0,
        None,
    );
    inserted(
        report,
        "   Rust: with_capacity(10), insert(8)",
        set,
        &mut words,
        8,
        0x100,
    );
    report.found("   Rust: {8}: maximum", maximum(set, &words), 0, Some(8));
    inserted(report, "   Rust: {8}, insert(2)", set, &mut words, 2, 0x104);
    report.found("   Rust: {8, 2}: maximum", maximum(set, &words), 0, Some(8));
}

// [0, 1] of two bits and [0, 1, 0] of three.
fn second_of(bits: usize, words: &mut [u64; 1]) -> Result<FixedBitSet, Refusal> {
    let fresh = with_capacity(bits, words)?;
    insert(fresh, words, 1)
}

fn unequal_lists() -> Result<bool, Refusal> {
    let mut words: [u64; 1] = [7];
    let mut other: [u64; 1] = [7];
    let two = second_of(2, &mut words)?;
    let three = second_of(3, &mut other)?;
    eq(two, &words, three, &other)
}

// "[0,1] is not equal to [0,1,0]".
fn unequal<R: Print>(report: &mut Report<'_, R>) {
    report.told(
        "   Rust: [0, 1] to [0, 1, 0]: eq",
        unequal_lists(),
        0,
        false,
    );
}

// `is_full`.
fn full<R: Print>(report: &mut Report<'_, R>) {
    let mut words: [u64; 1] = [7];
    let set = with_capacity(10, &mut words).unwrap_or(NONE);
    report.told(
        "   Rust: with_capacity(10): is_full",
        is_full(set, &words),
        0,
        false,
    );
    let answer = insert_range(set, &mut words, 0, 10);
    report.edited(
        "   Rust: with_capacity(10), insert_range(..)",
        set,
        answer,
        &words,
        0,
        10,
        &[0x3FF],
    );
    report.told("   Rust: all ten: is_full", is_full(set, &words), 0, true);
}

pub fn run<R: Print>(report: &mut Report<'_, R>) {
    blocks(report);
    lengths(report);
    least(report);
    greatest(report);
    full(report);
    unequal(report);
}
