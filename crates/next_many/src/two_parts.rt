ghost use Rattle.std.specs.Prelude.{◌≡◌};
ghost use Rattle.sets.specs.Members.{read};
ghost use Rattle.sets.specs.Questions.{pair_questions};
ghost use Rattle.walks.specs.Helpers.{chosen};
ghost use Rattle.walks.specs.Rules.{without};
ghost use Rattle.next_many.specs.Calls.{next_many_pair_of};
ghost use Rattle.next_many.specs.Rules.{many_pair_outcome, many_pair, union_next_many_rule, symmetric_difference_next_many_rule};

use crate::answers::ManyPair;
use crate::one_part::fill_part;
use parts::{Difference, Ones, Select};
use sets::{Checked, FixedBitSet, Part, Refusal};

// The first part, whose positions `S` selects, and then, in what is left of the buffer, the second set without the first.
fn fill_pair<S: Select>(
    a: FixedBitSet,
    words: &[u64],
    b: FixedBitSet,
    other: &[u64],
    one: Part,
    two: Part,
    out: &mut [u64],
) -> Result<ManyPair, Refusal>
    ensures { many_pair_outcome (next_many_pair_of one two result) out.new ≡ many_pair (pair_questions a words.now b other.now one two) (chosen S.selection (read words.now a) (read other.now b)) (without (read other.now b) (read words.now a)) one two out.old }
{
    let both = Checked::both(a, words, b, other)?;
    a.ask_part(one)?;
    b.ask_part(two)?;
    let first = fill_part::<S>(both.0, both.1, one, out);
    let second = fill_part::<Difference>(both.1, both.0, two, &mut out[first.count..]);
    Ok(ManyPair {
        count: first.count + second.count,
        one: first.part,
        two: second.part,
    })
}

// The next positions of the walk, as many as `out` has words: members of the first set, then of the second without the first. Asks 1 to 3 of each set, then 8 of each part.
pub fn union_next_many(
    a: FixedBitSet,
    words: &[u64],
    b: FixedBitSet,
    other: &[u64],
    one: Part,
    two: Part,
    out: &mut [u64],
) -> Result<ManyPair, Refusal>
    ensures { many_pair_outcome (next_many_pair_of one two result) out.new ≡ union_next_many_rule a words.now b other.now one two out.old }
{
    fill_pair::<Ones>(a, words, b, other, one, two, out)
}

// The next positions of the walk, as many as `out` has words: the first set without the second, then the second without the first. Asks the same.
pub fn symmetric_difference_next_many(
    a: FixedBitSet,
    words: &[u64],
    b: FixedBitSet,
    other: &[u64],
    one: Part,
    two: Part,
    out: &mut [u64],
) -> Result<ManyPair, Refusal>
    ensures { many_pair_outcome (next_many_pair_of one two result) out.new ≡ symmetric_difference_next_many_rule a words.now b other.now one two out.old }
{
    fill_pair::<Difference>(a, words, b, other, one, two, out)
}
