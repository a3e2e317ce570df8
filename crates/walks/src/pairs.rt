ghost use Rattle.std.specs.Prelude.{◌≡◌};
ghost use Rattle.sets.specs.Members.{read};
ghost use Rattle.sets.specs.Questions.{two_questions};
ghost use Rattle.parts.specs.Steps.{step};
ghost use Rattle.walks.specs.Helpers.{chosen};
ghost use Rattle.walks.specs.Rules.{stepped_of, stepped, intersection_next_rule, intersection_next_back_rule, difference_next_rule, difference_next_back_rule};

use crate::rows::step_row;
use parts::{Difference, End, Intersection, Select, Step};
use sets::{Checked, FixedBitSet, Part, Refusal};

// Written out in each call, where its end is known.
#[inline(always)]
fn pair_step<S: Select>(
    a: FixedBitSet,
    words: &[u64],
    b: FixedBitSet,
    other: &[u64],
    part: Part,
    end: End,
) -> Result<Step, Refusal>
    ensures { stepped_of part result ≡ stepped (two_questions a words.now b other.now part) part (step end (chosen S.selection (read words.now a) (read other.now b)) part) }
{
    let both = Checked::both(a, words, b, other)?;
    a.ask_part(part)?;
    Ok(step_row::<S>(both.0, both.1, part, end))
}

// The least member of both sets that the record has left. Asks 1 to 3 of each set, then 8.
pub fn intersection_next(
    a: FixedBitSet,
    words: &[u64],
    b: FixedBitSet,
    other: &[u64],
    part: Part,
) -> Result<Step, Refusal>
    ensures { stepped_of part result ≡ intersection_next_rule a words.now b other.now part }
{
    pair_step::<Intersection>(a, words, b, other, part, End::Front)
}

// The greatest of them. Asks the same.
pub fn intersection_next_back(
    a: FixedBitSet,
    words: &[u64],
    b: FixedBitSet,
    other: &[u64],
    part: Part,
) -> Result<Step, Refusal>
    ensures { stepped_of part result ≡ intersection_next_back_rule a words.now b other.now part }
{
    pair_step::<Intersection>(a, words, b, other, part, End::Back)
}

// The least member of the first set, and not of the second, that the record has left. Asks 1 to 3 of each set, then 8.
pub fn difference_next(
    a: FixedBitSet,
    words: &[u64],
    b: FixedBitSet,
    other: &[u64],
    part: Part,
) -> Result<Step, Refusal>
    ensures { stepped_of part result ≡ difference_next_rule a words.now b other.now part }
{
    pair_step::<Difference>(a, words, b, other, part, End::Front)
}

// The greatest of them. Asks the same.
pub fn difference_next_back(
    a: FixedBitSet,
    words: &[u64],
    b: FixedBitSet,
    other: &[u64],
    part: Part,
) -> Result<Step, Refusal>
    ensures { stepped_of part result ≡ difference_next_back_rule a words.now b other.now part }
{
    pair_step::<Difference>(a, words, b, other, part, End::Back)
}
