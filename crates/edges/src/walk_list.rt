use crate::report::Report;
use sets::FixedBitSet;
use std::io::Print;
use walks::{first_part, zeroes_next};
use whole_walks::{Walk, walk_whole};

// A = {1, 70}, L = 71; B = {0, 1}, L = 2.
fn two_sets<R: Print>(report: &mut Report<'_, R>) {
    let a = FixedBitSet::new(71);
    let b = FixedBitSet::new(2);
    let words: [u64; 2] = [2, 64];
    let other: [u64; 1] = [3];
    let mut answers: [u64; 4] = [0; 4];
    let answer = walk_whole(
        a,
        &words,
        b,
        &other,
        Walk::Union,
        &[0, 0, 0, 0],
        &mut answers,
    );
    report.walked(
        "P  A = {1, 70}, B = {0, 1}: union, four front steps",
        answer,
        &answers,
        3,
        &[1, 70, 0, u64::MAX],
    );
    let mut answers: [u64; 3] = [0; 3];
    let answer = walk_whole(
        a,
        &words,
        b,
        &other,
        Walk::SymmetricDifference,
        &[0, 0, 0],
        &mut answers,
    );
    report.walked(
        "P  A = {1, 70}, B = {0, 1}: symmetric_difference, three front steps",
        answer,
        &answers,
        2,
        &[70, 0, u64::MAX],
    );
}

fn both_ends<R: Print>(report: &mut Report<'_, R>) {
    let set = FixedBitSet::new(65);
    let words: [u64; 2] = [0x8000000000000001, 1];
    let mut answers: [u64; 5] = [0; 5];
    let answer = walk_whole(
        set,
        &words,
        set,
        &words,
        Walk::Ones,
        &[0, 1, 0, 0, 1],
        &mut answers,
    );
    report.walked(
        "P  L = 65, {0, 63, 64}: ones, front, back, front, front, back",
        answer,
        &answers,
        3,
        &[0, 64, 63, u64::MAX, u64::MAX],
    );
}

fn zeroes<R: Print>(report: &mut Report<'_, R>) {
    let set = FixedBitSet::new(3);
    let words: [u64; 1] = [2];
    let mut part = first_part(set);
    let mut answers = [None; 3];
    for answer in &mut answers {
        let Ok(step) = zeroes_next(set, &words, part) else {
            break;
        };
        part = step.part;
        *answer = step.at;
    }
    report.positions(
        "   L = 3, {1}: zeroes, three front steps",
        &answers,
        &[Some(0), Some(2), None],
    );
}

pub fn run<R: Print>(report: &mut Report<'_, R>) {
    two_sets(report);
    both_ends(report);
    zeroes(report);
}
