// Replays the stored answers of the unchanged Rust through the history run, and says how many agree.
#![tactic(auto)]

mod histories;
mod numbers;

use histories::{Replay, Sets, Tally};
use numbers::Reading;
use std::io::{Print, Read};
use std::{fs, io};

// A proved loop has to end, and nothing says that a file does: so its reads are counted.
const MOST_READS: u64 = 1000000;

fn replay_file<F: Read>(file: &mut F) -> Tally {
    let mut numbers = [0u64; 512];
    let mut words = [7u64; 1024];
    let mut other = [9u64; 1024];
    let mut out = [0u64; 64];
    let mut replay = Replay {
        reading: Reading::new(&mut numbers),
        sets: Sets {
            words: &mut words,
            other: &mut other,
            out: &mut out,
        },
        tally: Tally::new(),
    };
    let mut buffer = [0u8; 4096];
    for _ in 0..MOST_READS {
        match file.read(&mut buffer) {
            Ok(0) | Err(_) => break,
            Ok(count) => replay.feed(&buffer[..count]),
        }
    }
    replay.tally
}

// A text that cannot be written is left out: what was written is compared.
fn tell<R: Print>(rt: &R, tally: Tally) -> io::Result<()> {
    let _said = print!(rt; "{} histories of the Rust replayed: ", tally.histories);
    if tally.different == 0 {
        return println!(rt; "all agree");
    }
    println!(rt; "{} DIFFER", tally.different)
}

fn main(rt: HostRuntime) {
    let _written = match fs::open(&rt, "rust-answers.txt") {
        Ok(mut file) => tell(&rt, replay_file(&mut file)),
        Err(_) => println!(rt; "rust-answers.txt cannot be read: nothing was compared"),
    };
}
