use crate::numbers::Reading;
use history::run_history;
use sets::{FixedBitSet, blocks_of};
use whole_walks::Walk;
use word_lists::part;

// The sum of (word k xor k) over the first words.
fn checksum(words: &[u64], blocks: usize) -> u64 {
    let mut sum: u64 = 0;
    for (k, word) in words.iter().take(blocks).enumerate() {
        sum = sum.wrapping_add(*word ^ k as u64);
    }
    sum
}

// The words of both sets and the answers, which every line writes anew.
#[derive(Drop)]
pub struct Sets<'a> {
    pub words: &'a mut [u64],
    pub other: &'a mut [u64],
    pub out: &'a mut [u64],
}

// One of a line's two sets: the length that it begins with, and what it ends as.
#[derive(Clone, Copy)]
struct SetFields {
    bits: u64,
    length: u64,
    sum: u64,
}

impl SetFields {
    fn agrees(self, set: FixedBitSet, words: &[u64]) -> bool {
        self.length == set.length as u64 && self.sum == checksum(words, blocks_of(set.length))
    }
}

// A line's history and how it ends.
#[derive(Clone, Copy)]
struct History<'a> {
    a: SetFields,
    b: SetFields,
    calls: &'a [u64],
    walk: u64,
    steps: &'a [u64],
    count: u64,
    answers: &'a [u64],
}

// The fields of a line's numbers; none where they are not these.
fn history_of(numbers: &[u64]) -> Option<History<'_>> {
    let [a_bits, b_bits, calls, rest @ ..] = numbers else {
        return None;
    };
    let size = usize::try_from(*calls).ok()?.checked_mul(5)?;
    let calls = rest.get(..size)?;
    let [walk, steps, rest @ ..] = rest.get(size..)? else {
        return None;
    };
    let size = usize::try_from(*steps).ok()?;
    let steps = rest.get(..size)?;
    let [a_length, b_length, count, rest @ ..] = rest.get(size..)? else {
        return None;
    };
    let answers = rest.get(..size)?;
    let [a_sum, b_sum] = rest.get(size..)? else {
        return None;
    };
    Some(History {
        a: SetFields {
            bits: *a_bits,
            length: *a_length,
            sum: *a_sum,
        },
        b: SetFields {
            bits: *b_bits,
            length: *b_length,
            sum: *b_sum,
        },
        calls,
        walk: *walk,
        steps,
        count: *count,
        answers,
    })
}

// Whether the run of a line's history ends as the line says.
fn ends_alike(line: History, sets: &mut Sets) -> bool {
    // Any number from 4 up is the last walk.
    let walk = Walk::try_from(line.walk).unwrap_or(Walk::SymmetricDifference);
    let Ok(ran) = run_history(
        line.a.bits as usize,
        sets.words,
        line.b.bits as usize,
        sets.other,
        line.calls,
        &[],
        walk,
        line.steps,
        sets.out,
    ) else {
        return false;
    };
    line.a.agrees(ran.a, sets.words)
        && line.b.agrees(ran.b, sets.other)
        && line.count == ran.count as u64
        && line.answers == part(sets.out, 0, line.steps.len())
}

// Whether a line's history ends as the line says; none for a line with no number, which is a comment.
fn judged(reading: &mut Reading, sets: &mut Sets) -> Option<bool> {
    match reading.line() {
        Some([]) => None,
        Some(numbers) => Some(history_of(numbers).is_some_and(|history| ends_alike(history, sets))),
        None => Some(false),
    }
}

// How many histories were replayed, and how many differ.
#[derive(Clone, Copy, Debug, PartialEq, Eq)]
pub struct Tally {
    pub histories: u64,
    pub different: u64,
}

impl Tally {
    pub fn new() -> Tally {
        Tally {
            histories: 0,
            different: 0,
        }
    }

    fn count(&mut self, agrees: bool) {
        self.histories = self.histories.wrapping_add(1);
        if !agrees {
            self.different = self.different.wrapping_add(1);
        }
    }
}

// The replay of a file that is read in pieces: an unfinished line, the sets that every line writes, and the tally so far.
#[derive(Drop)]
pub struct Replay<'a> {
    pub reading: Reading<'a>,
    pub sets: Sets<'a>,
    pub tally: Tally,
}

impl Replay<'_> {
    pub fn feed(&mut self, piece: &[u8]) {
        for byte in piece {
            if *byte != b'\n' {
                self.reading.take(*byte);
                continue;
            }
            if let Some(agrees) = judged(&mut self.reading, &mut self.sets) {
                self.tally.count(agrees);
            }
            self.reading.next_line();
        }
    }
}
