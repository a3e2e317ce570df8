ghost use Rattle.std.specs.Prelude.{◌≡◌};
ghost use Rattle.sets.specs.Members.{read};
ghost use Rattle.sets.specs.Questions.{part_questions};
ghost use Rattle.parts.specs.Steps.{step};
ghost use Rattle.walks.specs.Helpers.{chosen};
ghost use Rattle.walks.specs.Rules.{stepped_of, stepped, ones_next_rule, ones_next_back_rule, zeroes_next_rule};

use crate::rows::step_row;
use parts::{End, Ones, Select, Step, Zeroes};
use sets::{Checked, FixedBitSet, Part, Refusal};

fn one_step<S: Select>(
    set: FixedBitSet,
    words: &[u64],
    part: Part,
    end: End,
) -> Result<Step, Refusal>
    ensures { stepped_of part result ≡ stepped (part_questions set words.now part) part (step end (chosen S.selection (read words.now set) (read words.now set)) part) }
{
    let checked = Checked::new(set, words)?;
    set.ask_part(part)?;
    Ok(step_row::<S>(checked, checked, part, end))
}

// The least member that the record has left. Asks 1 to 3, then 8.
pub fn ones_next(set: FixedBitSet, words: &[u64], part: Part) -> Result<Step, Refusal>
    ensures { stepped_of part result ≡ ones_next_rule set words.now part }
{
    one_step::<Ones>(set, words, part, End::Front)
}

// The greatest member that the record has left. Asks 1 to 3, then 8.
pub fn ones_next_back(set: FixedBitSet, words: &[u64], part: Part) -> Result<Step, Refusal>
    ensures { stepped_of part result ≡ ones_next_back_rule set words.now part }
{
    one_step::<Ones>(set, words, part, End::Back)
}

// The least non-member that the record has left. Asks 1 to 3, then 8.
pub fn zeroes_next(set: FixedBitSet, words: &[u64], part: Part) -> Result<Step, Refusal>
    ensures { stepped_of part result ≡ zeroes_next_rule set words.now part }
{
    one_step::<Zeroes>(set, words, part, End::Front)
}
