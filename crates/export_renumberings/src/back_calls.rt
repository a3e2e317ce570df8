ghost use Rattle.renumber_steps.specs.Promises.{AndBack};

use renumber_steps::Pair;
use renumberings::renumber_and_back;
use sets::{FixedBitSet, Told};

#[unsafe(no_mangle)]
pub extern "C" fn fbs_renumber_and_back(
    set: FixedBitSet,
    words: &[u64],
    pairs: &[Pair],
    bits: usize,
    out: &mut [u64],
    again: &mut [u64],
) -> Told
    ensures { AndBack set words.now pairs.now bits out.old again.old result out.new again.new }
{
    Told::from(renumber_and_back(set, words, pairs, bits, out, again))
}
