ghost use Rattle.std.specs.Prelude.{◌≡◌};
ghost use Rattle.sets.specs.CheckedSets.{members};
ghost use Rattle.sets.specs.Members.{bit_of};
ghost use Rattle.renumber_steps.specs.Pairs.{sided, olds};
ghost use Rattle.renumber_steps.specs.Passes.{Taken, marked, marking_all, moved};

use renumber_steps::{Pair, Side};
use sets::Checked;

// Makes the bit of an offset 1 where the words have it, and tells whether it was. Asks nothing.
#[tactic(auto, using(renumber_steps::proofs::MarkLaws::mark_cases))]
fn mark(words: &mut [u64], offset: u64) -> bool
    ensures found { result ≡ bit_of words.old offset }
    ensures words { words.new ≡ marked words.old offset }
{
    let k = (offset / 64) as usize;
    if words.len() <= k {
        return false;
    }
    let rem = offset % 64;
    let word = words[k];
    words[k] = word | (1 << rem);
    word & (1 << rem) != 0
}

// Marks each old offset, up to the first that is marked already; tells whether there is one.
#[tactic(auto, using(renumber_steps::proofs::PassLaws::mark_steps))]
pub(crate) fn mark_olds<S: Side>(pairs: &[Pair], marks: &mut [u64]) -> bool
    ensures { record { found = result; words = marks.new } ≡ marking_all marks.old (olds (sided S.back pairs.now)) }
{
    for pair in pairs {
        if mark(marks, S::sided(*pair).old) {
            return true;
        }
    }
    false
}

// Whether an offset is a member: `sets::member` with no word that may not be there, 56.6 instructions a pair in place of 61.6.
#[tactic(auto, using(renumber_steps::proofs::MarkLaws::member_cases))]
fn holds(set: Checked, offset: u64) -> bool
    ensures { result ≡ (members set.entry).has offset }
{
    if set.length as u64 <= offset {
        return false;
    }
    set.words[(offset / 64) as usize] & (1 << (offset % 64)) != 0
}

// Marks the new offset of each member.
#[tactic(auto, using(renumber_steps::proofs::PassLaws::move_steps))]
pub(crate) fn move_members<S: Side>(set: Checked<'_>, pairs: &[Pair], out: &mut [u64])
    ensures { out.new ≡ moved (members set.entry) out.old (sided S.back pairs.now) }
{
    for pair in pairs {
        let sided = S::sided(*pair);
        if holds(set, sided.old) {
            mark(out, sided.new);
        }
    }
}
