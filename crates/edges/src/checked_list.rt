use crate::report::Report;
use comparisons::{Compared, cmp};
use edits::insert;
use extremes::minimum;
use growth::grow_and_insert;
use range_counts::count_ones;
use range_edits::insert_range;
use set_views::len;
use sets::FixedBitSet;
use std::io::Print;
use tests::{is_clear, is_full};
use two_sets::union_with;
use word_bits::{LastBit, last_positive_bit_and_unset};

fn no_bits<R: Print>(report: &mut Report<'_, R>) {
    let set = FixedBitSet::new(0);
    let words: [u64; 1] = [5];
    report.told("P  L = 0: is_full", is_full(set, &words), 0, true);
    report.told("P  L = 0: is_clear", is_clear(set, &words), 0, true);
    report.found("P  L = 0: minimum", minimum(set, &words), 0, None);
}

fn ranges<R: Print>(report: &mut Report<'_, R>) {
    let mut words: [u64; 2] = [7, 9];
    let set = FixedBitSet::new(64);
    let answer = insert_range(set, &mut words, 64, 64);
    report.edited(
        "P  L = 64: insert_range 64..64",
        set,
        answer,
        &words,
        0,
        64,
        &[7, 9],
    );
    let set = FixedBitSet::new(64);
    let answer = insert_range(set, &mut words, 64, 65);
    report.edited(
        "P  L = 64: insert_range 64..65",
        set,
        answer,
        &words,
        5,
        64,
        &[7, 9],
    );
    let mut words: [u64; 2] = [0, 0];
    let set = FixedBitSet::new(70);
    let answer = insert_range(set, &mut words, 60, 70);
    report.edited(
        "P  L = 70, no member: insert_range 60..70",
        set,
        answer,
        &words,
        0,
        70,
        &[0xF000000000000000, 0x3F],
    );
}

fn two_and_eight<R: Print>(report: &mut Report<'_, R>) {
    let set = FixedBitSet::new(10);
    let mut words: [u64; 1] = [0x4];
    let answer = insert(set, &mut words, 8);
    report.edited(
        "P  L = 10, {2}: insert 8",
        set,
        answer,
        &words,
        0,
        10,
        &[0x104],
    );
    let answer = count_ones(set, &words, 2, 8);
    report.counted("P  L = 10, {2, 8}: count_ones of 2..8", answer, 0, 1);
    let answer = edits::copy_bit(set, &mut words, 99, 2);
    report.edited(
        "P  L = 10, {2, 8}: copy_bit from 99 to 2",
        set,
        answer,
        &words,
        0,
        10,
        &[0x100],
    );
}

fn unions<R: Print>(report: &mut Report<'_, R>) {
    let other: [u64; 3] = [0, 0, 2];
    let mut words: [u64; 3] = [8, 77, 77];
    let set = FixedBitSet::new(4);
    let answer = union_with(set, &mut words, FixedBitSet::new(130), &other);
    report.edited(
        "P  L = 4, {3}: union_with L = 130, {129}",
        set,
        answer,
        &words,
        0,
        130,
        &[8, 0, 2],
    );
    let mut words: [u64; 2] = [8, 77];
    let set = FixedBitSet::new(4);
    let answer = union_with(set, &mut words, FixedBitSet::new(130), &other);
    report.edited(
        "   the same union with two words lent",
        set,
        answer,
        &words,
        7,
        4,
        &[8, 77],
    );
}

fn helper<R: Print>(report: &mut Report<'_, R>) {
    let answer = LastBit::from(last_positive_bit_and_unset(12));
    report.numbers(
        "P  helper on 12: number, position, rest",
        &[answer.number, answer.position as u64, answer.rest],
        &[0, 2, 8],
    );
    let answer = LastBit::from(last_positive_bit_and_unset(0));
    report.numbers(
        "P  helper on 0: number, position, rest",
        &[answer.number, answer.position as u64, answer.rest],
        &[9, 0, 0],
    );
}

fn stray<R: Print>(report: &mut Report<'_, R>) {
    let words: [u64; 2] = [0, 2];
    report.counted(
        "   L = 65, word 1 is 2: len",
        len(FixedBitSet::new(65), &words),
        3,
        0,
    );
}

fn longest<R: Print>(report: &mut Report<'_, R>) {
    let mut words: [u64; 1024] = [7; 1024];
    let mut expected: [u64; 1024] = [7; 1024];
    let set = FixedBitSet::new(0);
    let answer = grow_and_insert(set, &mut words, 65536);
    report.edited(
        "   L = 0, 1,024 words of 7: grow_and_insert 65,536",
        set,
        answer,
        &words,
        6,
        0,
        &expected,
    );
    expected = [0; 1024];
    expected[1023] = 0x8000000000000000;
    let set = FixedBitSet::new(0);
    let answer = grow_and_insert(set, &mut words, 65535);
    report.edited(
        "   L = 0, 1,024 words of 7: grow_and_insert 65,535",
        set,
        answer,
        &words,
        0,
        65536,
        &expected,
    );
}

fn orders<R: Print>(report: &mut Report<'_, R>) {
    let two = FixedBitSet::new(2);
    let three = FixedBitSet::new(3);
    let answer = Compared::from(cmp(two, &[1], two, &[2]));
    report.numbers(
        "   L = 2: {0} to {1}: number, order",
        &[answer.number, answer.order],
        &[0, 1],
    );
    let answer = Compared::from(cmp(two, &[1], three, &[0]));
    report.numbers(
        "   L = 2, {0} to the empty set of L = 3: number, order",
        &[answer.number, answer.order],
        &[0, 1],
    );
    let answer = Compared::from(cmp(two, &[2], three, &[0]));
    report.numbers(
        "   L = 2, {1} to the empty set of L = 3: number, order",
        &[answer.number, answer.order],
        &[0, 1],
    );
}

pub fn run<R: Print>(report: &mut Report<'_, R>) {
    no_bits(report);
    ranges(report);
    two_and_eight(report);
    unions(report);
    helper(report);
    stray(report);
    longest(report);
    orders(report);
}
