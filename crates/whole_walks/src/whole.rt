ghost use Rattle.std.specs.Prelude.{◌≡◌, ◌++◌, map, ◌≤◌, length, drop};
ghost use Rattle.sets.specs.CheckedSets.{members};
ghost use Rattle.sets.specs.Refusals.{counted_of};
ghost use Rattle.parts.specs.Selections as picks;
ghost use Rattle.walks.specs.Helpers.{chosen};
ghost use Rattle.whole_walks.specs.Walks.{answers_from};
ghost use Rattle.whole_walks.specs.Helpers.{selection_of, second_part, left_of, records_after};
ghost use Rattle.whole_walks.specs.Rules.{end_of, answer_word, walk_outcome, walk_rule};

use crate::walk::Walk;
use crate::walk_counts::walk_count;
use parts::{Difference, End, Intersection, Ones, Select};
use sets::{Checked, FixedBitSet, Part, Refusal};
use walks::{RowStep, first_part, step_rows};

// Steps and answers are numbers in lent words, as C hands them over: 0 is a front step, and 2^64 - 1 an answer of none. No `From`: neither type is this crate's.
fn end_of(number: u64) -> End
    ensures { result ≡ end_of number }
{
    if number == 0 { End::Front } else { End::Back }
}

fn answer_word(at: Option<usize>) -> u64
    ensures { result ≡ answer_word at }
{
    at.map_or(u64::MAX, |p| p as u64)
}

fn second_part(walk: Walk, b: FixedBitSet) -> Part
    ensures { result ≡ second_part walk b }
{
    match walk {
        Walk::Ones | Walk::Intersection | Walk::Difference => Part { low: 0, high: 0 },
        Walk::Union | Walk::SymmetricDifference => first_part(b),
    }
}

fn left_of(at: Option<usize>, part: Part) -> Part
    ensures { result ≡ left_of at part }
{
    match at {
        Some(_) => part,
        None => Part { low: 0, high: 0 },
    }
}

// The records of both parts of a walk; a walk of one part goes by the first.
#[derive(Clone, Copy)]
pub struct Records {
    pub one: Part,
    pub two: Part,
}

impl Records {
    // A part that gave none is over for good, and is not searched again.
    fn after(self, end: End, step: RowStep) -> Records
        ensures { result ≡ records_after self.one self.two end step }
    {
        let over = Part { low: 0, high: 0 };
        let left = left_of(step.at, step.part);
        match end {
            End::Front => {
                if step.second {
                    Records {
                        one: over,
                        two: left,
                    }
                } else {
                    Records {
                        one: left,
                        two: self.two,
                    }
                }
            }
            End::Back => {
                if step.second {
                    Records {
                        one: self.one,
                        two: left,
                    }
                } else {
                    Records {
                        one: left,
                        two: over,
                    }
                }
            }
        }
    }
}

// The answers of the steps from the records on.
fn take_steps<S: Select>(
    a: Checked<'_>,
    b: Checked<'_>,
    first: Records,
    steps: &[u64],
    out: &mut [u64],
)
    requires { length steps.now ≤ length out.old }
    ensures { out.new ≡ map answer_word (answers_from (chosen S.selection (members a.entry) (members b.entry)) (chosen picks.Difference (members b.entry) (members a.entry)) (map end_of steps.now) first.one first.two) ++ drop (length steps.now) out.old }
{
    let mut records = first;
    // By the index: nothing is known of words that an adapter of `iter_mut` writes.
    for k in 0..steps.len() {
        let end = end_of(steps[k]);
        let step = step_rows::<S, Difference>(a.words, b.words, records.one, records.two, end);
        records = records.after(end, step);
        out[k] = answer_word(step.at);
    }
}

// The same, with a loop of its own for each selection.
fn walk_steps(
    a: Checked<'_>,
    b: Checked<'_>,
    walk: Walk,
    first: Records,
    steps: &[u64],
    out: &mut [u64],
)
    requires { length steps.now ≤ length out.old }
    ensures { out.new ≡ map answer_word (answers_from (chosen (selection_of walk) (members a.entry) (members b.entry)) (chosen picks.Difference (members b.entry) (members a.entry)) (map end_of steps.now) first.one first.two) ++ drop (length steps.now) out.old }
{
    match walk {
        Walk::Ones | Walk::Union => take_steps::<Ones>(a, b, first, steps, out),
        Walk::Intersection => take_steps::<Intersection>(a, b, first, steps, out),
        Walk::Difference | Walk::SymmetricDifference => {
            take_steps::<Difference>(a, b, first, steps, out)
        }
    }
}

// A walk from its first records on, with a step for each number, and its count after them. The answers are written in the order of the steps.
pub fn walk_whole(
    a: FixedBitSet,
    words: &[u64],
    b: FixedBitSet,
    other: &[u64],
    walk: Walk,
    steps: &[u64],
    out: &mut [u64],
) -> Result<usize, Refusal>
    ensures { walk_outcome (counted_of result) out.new ≡ walk_rule a words.now b other.now walk steps.now out.old }
{
    let both = Checked::both(a, words, b, other)?;
    if out.len() < steps.len() {
        return Err(Refusal::Room);
    }
    let first = Records {
        one: first_part(a),
        two: second_part(walk, b),
    };
    walk_steps(both.0, both.1, walk, first, steps, out);
    walk_count(a, words, b, other, walk)
}
