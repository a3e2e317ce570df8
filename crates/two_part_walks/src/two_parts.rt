ghost use Rattle.std.specs.Prelude.{◌≡◌};
ghost use Rattle.sets.specs.Members.{read};
ghost use Rattle.sets.specs.Questions.{pair_questions};
ghost use Rattle.walks.specs.Helpers.{chosen, placed};
ghost use Rattle.walks.specs.Rules.{pair_step, without, stepped_pair_of, stepped_pair, union_next_rule, union_next_back_rule, symmetric_difference_next_rule, symmetric_difference_next_back_rule};

use parts::{Difference, End, Ones, Select};
use sets::{Checked, FixedBitSet, Part, Refusal};
use walks::{PairStep, RowStep, step_rows};

// The part that was stepped has the record after the step, the other its own.
fn place(one: Part, two: Part, step: RowStep) -> PairStep
    ensures { result ≡ placed one two step }
{
    let (one, two) = if step.second {
        (one, step.part)
    } else {
        (step.part, two)
    };
    PairStep {
        at: step.at,
        one,
        two,
    }
}

// The first part is what `S` selects of the first set; the second, in each walk here, the second set without the first. Written out in each call, where its end is known.
#[inline(always)]
fn two_part_step<S: Select>(
    a: FixedBitSet,
    words: &[u64],
    b: FixedBitSet,
    other: &[u64],
    one: Part,
    two: Part,
    end: End,
) -> Result<PairStep, Refusal>
    ensures { stepped_pair_of one two result ≡ stepped_pair (pair_questions a words.now b other.now one two) one two (pair_step end (chosen S.selection (read words.now a) (read other.now b)) (without (read other.now b) (read words.now a)) one two) }
{
    let both = Checked::both(a, words, b, other)?;
    a.ask_part(one)?;
    b.ask_part(two)?;
    let step = step_rows::<S, Difference>(both.0.words, both.1.words, one, two, end);
    Ok(place(one, two, step))
}

// The next member of the first set, or, where its part is over, of the second without the first. Asks 1 to 3 of each set, then 8 of each part.
pub fn union_next(
    a: FixedBitSet,
    words: &[u64],
    b: FixedBitSet,
    other: &[u64],
    one: Part,
    two: Part,
) -> Result<PairStep, Refusal>
    ensures { stepped_pair_of one two result ≡ union_next_rule a words.now b other.now one two }
{
    two_part_step::<Ones>(a, words, b, other, one, two, End::Front)
}

// The same from the other end: the second part is tried first. Asks the same.
pub fn union_next_back(
    a: FixedBitSet,
    words: &[u64],
    b: FixedBitSet,
    other: &[u64],
    one: Part,
    two: Part,
) -> Result<PairStep, Refusal>
    ensures { stepped_pair_of one two result ≡ union_next_back_rule a words.now b other.now one two }
{
    two_part_step::<Ones>(a, words, b, other, one, two, End::Back)
}

// The next member of the first set without the second, or, where that part is over, of the second without the first. Asks 1 to 3 of each set, then 8 of each part.
pub fn symmetric_difference_next(
    a: FixedBitSet,
    words: &[u64],
    b: FixedBitSet,
    other: &[u64],
    one: Part,
    two: Part,
) -> Result<PairStep, Refusal>
    ensures { stepped_pair_of one two result ≡ symmetric_difference_next_rule a words.now b other.now one two }
{
    two_part_step::<Difference>(a, words, b, other, one, two, End::Front)
}

// The same from the other end: the second part is tried first. Asks the same.
pub fn symmetric_difference_next_back(
    a: FixedBitSet,
    words: &[u64],
    b: FixedBitSet,
    other: &[u64],
    one: Part,
    two: Part,
) -> Result<PairStep, Refusal>
    ensures { stepped_pair_of one two result ≡ symmetric_difference_next_back_rule a words.now b other.now one two }
{
    two_part_step::<Difference>(a, words, b, other, one, two, End::Back)
}
