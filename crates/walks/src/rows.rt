// Steps over checked sets and over any words: no question is asked.
ghost use Rattle.std.specs.Prelude.{◌≡◌};
ghost use Rattle.sets.specs.CheckedSets.{members};
ghost use Rattle.parts.specs.Steps.{step};
ghost use Rattle.walks.specs.Helpers.{chosen, row_of, tried, row_step};

use parts::{End, Select, Step, step_selected};
use sets::{Checked, Part};

// A step of one of two parts: whether it is the second, and that part's record after it. A flag beside them, since callers take the position and the record whichever part it is.
#[derive(Clone, Copy)]
pub struct RowStep {
    pub second: bool,
    pub at: Option<usize>,
    pub part: Part,
}

// A step of the part that `S` selects of the first set given the second.
pub fn step_row<S: Select>(a: Checked<'_>, b: Checked<'_>, part: Part, end: End) -> Step
    ensures { result ≡ step end (chosen S.selection (members a.entry) (members b.entry)) part }
{
    step_selected::<S>(a.words, b.words, part, end)
}

// `second` tells whether `part`, which is tried first, is the second part.
fn try_rows<S: Select, L: Select>(
    words: &[u64],
    other: &[u64],
    part: Part,
    later: Part,
    end: End,
    second: bool,
) -> RowStep
    ensures { result ≡ tried second (step end (row_of S.selection words.now other.now) part) (step end (row_of L.selection other.now words.now) later) }
{
    let step = step_selected::<S>(words, other, part, end);
    match step.at {
        Some(p) => RowStep {
            second,
            at: Some(p),
            part: step.part,
        },
        None => {
            let last = step_selected::<L>(other, words, later, end);
            RowStep {
                second: !second,
                at: last.at,
                part: last.part,
            }
        }
    }
}

// A step of two parts: the first is what `S` selects of the first slice given the second, the second what `L` selects of the second given the first.
// Written out in each call: a step of `union` took half as many instructions again without.
#[inline(always)]
pub fn step_rows<S: Select, L: Select>(
    words: &[u64],
    other: &[u64],
    one: Part,
    two: Part,
    end: End,
) -> RowStep
    ensures { result ≡ row_step end (row_of S.selection words.now other.now) (row_of L.selection other.now words.now) one two }
{
    match end {
        End::Front => try_rows::<S, L>(words, other, one, two, End::Front, false),
        End::Back => try_rows::<L, S>(other, words, two, one, End::Back, true),
    }
}
