ghost use Rattle.std.specs.Prelude.{◌≡◌};
ghost use Rattle.sets.specs.CheckedSets.{members};
ghost use Rattle.sets.specs.Refusals.{number_of};
ghost use Rattle.renumber_steps.specs.Pairs.{sided, olds};
ghost use Rattle.renumber_steps.specs.Rules.{pairs_questions};
ghost use Rattle.renumber_steps.specs.Passes.{Taken, shared};

use crate::answers::members_marked;
use crate::finds::{has_beyond, repeats_above};
use crate::passes::mark_olds;
use range_counts::ones_of_words;
use renumber_steps::{Pair, Side, Swapped};
use sets::{Checked, Refusal};

// Whether two pairs share an old offset. Where none do, the marks are the old offsets below 65,536.
fn shares<S: Side>(pairs: &[Pair], marks: &mut [u64; 1024]) -> bool
    ensures { record { found = result; words = marks.new } ≡ shared (olds (sided S.back pairs.now)) }
{
    marks.fill(0);
    if mark_olds::<S>(pairs, marks) {
        return true;
    }
    // As many marks as pairs: no offset is from 65,536 up.
    if ones_of_words(marks) == pairs.len() {
        return false;
    }
    repeats_above::<S>(pairs)
}

// Questions 10, 11, 4 and 12: each goes over all pairs before the next is asked. Whether every member has a pair is read from the marks of the old offsets,
// before they give way to those of the new ones.
pub(crate) fn ask_pairs<S: Side>(
    set: Checked<'_>,
    pairs: &[Pair],
    bits: usize,
) -> Result<(), Refusal>
    ensures { number_of result ≡ pairs_questions (sided S.back pairs.now) bits (members set.entry) }
{
    let mut marks = [0u64; 1024];
    if shares::<S>(pairs, &mut marks) {
        return Err(Refusal::SharedOld);
    }
    let paired = members_marked(set, &marks);
    if shares::<Swapped<S>>(pairs, &mut marks) {
        return Err(Refusal::SharedNew);
    }
    if has_beyond::<Swapped<S>>(pairs, bits) {
        return Err(Refusal::Position);
    }
    if paired { Ok(()) } else { Err(Refusal::NoPair) }
}
