ghost use Rattle.std.specs.Prelude.{◌≡◌, ◌≤◌, length};
ghost use Rattle.sets.specs.CheckedSets.{members};
ghost use Rattle.sets.specs.Members.{read};
ghost use Rattle.sets.specs.Questions.{part_questions, two_questions};
ghost use Rattle.walks.specs.Helpers.{chosen};
ghost use Rattle.next_many.specs.Calls.{accepted_many, next_many_of};
ghost use Rattle.next_many.specs.Many.{front_steps};
ghost use Rattle.next_many.specs.Rules.{many_outcome, written, many, ones_next_many_rule, zeroes_next_many_rule, intersection_next_many_rule, difference_next_many_rule};

use crate::answers::Many;
use crate::fill::fill;
use parts::{Difference, Intersection, Ones, Select, Zeroes};
use sets::{Checked, FixedBitSet, Part, Refusal};

// What a call gives that is not refused: the positions are members of the checked sets. Beside `fill`, which is over slices: over checked sets it was tried, and that each word of the second fits in 64 bits was not known.
pub(crate) fn fill_part<S: Select>(
    a: Checked<'_>,
    b: Checked<'_>,
    part: Part,
    out: &mut [u64],
) -> Many
    requires { part.high ≤ a.length }
    ensures room { result.count ≤ length out.old }
    ensures steps { many_outcome (accepted_many result) out.new ≡ written out.old (front_steps (length out.old) (chosen S.selection (members a.entry) (members b.entry)) part) }
{
    fill::<S>(a.words, b.words, part, out)
}

fn fill_one_set<S: Select>(
    set: FixedBitSet,
    words: &[u64],
    part: Part,
    out: &mut [u64],
) -> Result<Many, Refusal>
    ensures { many_outcome (next_many_of part result) out.new ≡ many (part_questions set words.now part) (chosen S.selection (read words.now set) (read words.now set)) part out.old }
{
    let checked = Checked::new(set, words)?;
    set.ask_part(part)?;
    Ok(fill_part::<S>(checked, checked, part, out))
}

fn fill_two_sets<S: Select>(
    a: FixedBitSet,
    words: &[u64],
    b: FixedBitSet,
    other: &[u64],
    part: Part,
    out: &mut [u64],
) -> Result<Many, Refusal>
    ensures { many_outcome (next_many_of part result) out.new ≡ many (two_questions a words.now b other.now part) (chosen S.selection (read words.now a) (read other.now b)) part out.old }
{
    let both = Checked::both(a, words, b, other)?;
    a.ask_part(part)?;
    Ok(fill_part::<S>(both.0, both.1, part, out))
}

// The next members, as many as `out` has words. Asks 1 to 3, then 8.
pub fn ones_next_many(
    set: FixedBitSet,
    words: &[u64],
    part: Part,
    out: &mut [u64],
) -> Result<Many, Refusal>
    ensures { many_outcome (next_many_of part result) out.new ≡ ones_next_many_rule set words.now part out.old }
{
    fill_one_set::<Ones>(set, words, part, out)
}

// The next non-members, as many as `out` has words. Asks 1 to 3, then 8.
pub fn zeroes_next_many(
    set: FixedBitSet,
    words: &[u64],
    part: Part,
    out: &mut [u64],
) -> Result<Many, Refusal>
    ensures { many_outcome (next_many_of part result) out.new ≡ zeroes_next_many_rule set words.now part out.old }
{
    fill_one_set::<Zeroes>(set, words, part, out)
}

// The next members of both sets, as many as `out` has words. Asks 1 to 3 of each set, then 8.
pub fn intersection_next_many(
    a: FixedBitSet,
    words: &[u64],
    b: FixedBitSet,
    other: &[u64],
    part: Part,
    out: &mut [u64],
) -> Result<Many, Refusal>
    ensures { many_outcome (next_many_of part result) out.new ≡ intersection_next_many_rule a words.now b other.now part out.old }
{
    fill_two_sets::<Intersection>(a, words, b, other, part, out)
}

// The next members of the first set that are not in the second, as many as `out` has words. Asks 1 to 3 of each set, then 8.
pub fn difference_next_many(
    a: FixedBitSet,
    words: &[u64],
    b: FixedBitSet,
    other: &[u64],
    part: Part,
    out: &mut [u64],
) -> Result<Many, Refusal>
    ensures { many_outcome (next_many_of part result) out.new ≡ difference_next_many_rule a words.now b other.now part out.old }
{
    fill_two_sets::<Difference>(a, words, b, other, part, out)
}
