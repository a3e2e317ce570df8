ghost use Rattle.sets.specs.Refusals.{told_of};
ghost use Rattle.renumber_steps.specs.Promises.{AndBack};

use crate::moves::{renumber, renumber_back};
use comparisons::eq;
use renumber_steps::Pair;
use sets::{FixedBitSet, Refusal};

// `renumber` into `out`, then `renumber_back` of that into `again`, with the old length; tells whether the old set stands there. The number is that of the
// call that refused: where the first did, nothing is written.
pub fn renumber_and_back(
    set: FixedBitSet,
    words: &[u64],
    pairs: &[Pair],
    bits: usize,
    out: &mut [u64],
    again: &mut [u64],
) -> Result<bool, Refusal>
    ensures { AndBack set words.now pairs.now bits out.old again.old (told_of result) out.new again.new }
{
    let moved = renumber(set, words, pairs, bits, out)?;
    let back = renumber_back(moved, out, pairs, set.length, again)?;
    eq(set, words, back, again)
}
