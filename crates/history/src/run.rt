ghost use Rattle.std.specs.Prelude.{◌≡◌, length};
ghost use Rattle.sets.specs.Refusals.{number_of};
ghost use Rattle.history.specs.Runs.{input_of, output_of, ran_of, run_questions};
ghost use Rattle.history.specs.ThirdDemand.{ThirdDemand};

use crate::ran::Run;
use calls::replay;
use fresh_sets::with_capacity;
use sets::{Refusal, check_new};
use whole_walks::{Walk, walk_whole};

// Everything is asked before anything is written: 6 and 7 of each set, first set first, then 7 of the buffer for the answers.
fn check_run(
    a_bits: usize,
    words: &[u64],
    b_bits: usize,
    other: &[u64],
    steps: &[u64],
    out: &[u64],
) -> Result<(), Refusal>
    ensures { number_of result ≡ run_questions a_bits (length words.now) b_bits (length other.now) (length steps.now) (length out.now) }
{
    check_new(a_bits, words)?;
    check_new(b_bits, other)?;
    if out.len() < steps.len() {
        return Err(Refusal::Room);
    }
    Ok(())
}

// Makes two fresh sets, makes the calls one after the other, takes the steps of the walk from its first records on, and counts.
pub fn run_history(
    a_bits: usize,
    words: &mut [u64],
    b_bits: usize,
    other: &mut [u64],
    calls: &[u64],
    positions: &[u64],
    walk: Walk,
    steps: &[u64],
    out: &mut [u64],
) -> Result<Run, Refusal>
    ensures { ThirdDemand (input_of a_bits words.old b_bits other.old calls.now positions.now walk steps.now out.old) (output_of (ran_of result) words.new other.new out.new) }
{
    check_run(a_bits, words, b_bits, other, steps, out)?;
    let fresh_a = with_capacity(a_bits, words)?;
    let fresh_b = with_capacity(b_bits, other)?;
    let (a, b) = replay(fresh_a, words, fresh_b, other, calls, positions)?;
    let count = walk_whole(a, words, b, other, walk, steps, out)?;
    Ok(Run { a, b, count })
}
