ghost use Rattle.std.specs.Prelude.{◌≡◌, IfOk};
ghost use Rattle.sets.specs.Members.{read};
ghost use Rattle.sets.specs.Questions.{questions, both_questions};
ghost use Rattle.sets.specs.Refusals.{number_of};
ghost use Rattle.sets.specs.CheckedSets.{members};

use crate::checked::Checked;
use crate::fixed_bit_set::FixedBitSet;
use crate::refusal::Refusal;
use crate::sizes::blocks_of;

impl<'a> Checked<'a> {
    // Asks 1 to 3.
    pub fn new(set: FixedBitSet, words: &'a [u64]) -> Result<Checked<'a>, Refusal>
        ensures number { number_of result ≡ questions set words.entry.now }
        ensures same { IfOk result (λ checked. members checked ≡ read words.entry.now set) }
    {
        set.check(words)?;
        Ok(Checked {
            length: set.length,
            words: &words[..blocks_of(set.length)],
        })
    }

    // Asks 1 to 3 of the first set, then of the second.
    pub fn both(
        a: FixedBitSet,
        words: &'a [u64],
        b: FixedBitSet,
        other: &'a [u64],
    ) -> Result<(Checked<'a>, Checked<'a>), Refusal>
        ensures number { number_of result ≡ both_questions a words.entry.now b other.entry.now }
        ensures same { IfOk result (λ both. (members both.0 ≡ read words.entry.now a) × (members both.1 ≡ read other.entry.now b)) }
    {
        Ok((Checked::new(a, words)?, Checked::new(b, other)?))
    }
}
