ghost use Rattle.history.specs.Runs.{input_of, output_of};
ghost use Rattle.whole_walks.specs.Numbers.{walk_of};
ghost use Rattle.export_history.specs.Runs.{ExportedRun};

use history::{Ran, run_history};
use sets::FixedBitSet;
use whole_walks::Walk;

#[unsafe(no_mangle)]
pub extern "C" fn fbs_run_history(
    a_bits: usize,
    words: &mut [u64],
    b_bits: usize,
    other: &mut [u64],
    calls: &[u64],
    positions: &[u64],
    walk: u64,
    steps: &[u64],
    out: &mut [u64],
) -> Ran
    ensures { ExportedRun walk (input_of a_bits words.old b_bits other.old calls.now positions.now (walk_of walk) steps.now out.old) (output_of result words.new other.new out.new) }
{
    match Walk::try_from(walk) {
        Ok(walk) => Ran::from(run_history(
            a_bits, words, b_bits, other, calls, positions, walk, steps, out,
        )),
        Err(_) => Ran {
            number: 99,
            a: FixedBitSet::new(0),
            b: FixedBitSet::new(0),
            count: 0,
        },
    }
}
