ghost use Rattle.std.specs.Prelude.{◌≡◌};
ghost use Rattle.sets.specs.Outcomes.{outcome};
ghost use Rattle.sets.specs.Refusals.{edited_of};
ghost use Rattle.edits.specs.Rules.{insert_all_rule};

use sets::{FixedBitSet, Refusal};

// Makes each position of the list a member. Asks 1 to 3, then 4 of every position; only then is a word written.
pub fn insert_all(
    set: FixedBitSet,
    words: &mut [u64],
    positions: &[u64],
) -> Result<FixedBitSet, Refusal>
    ensures { outcome (edited_of set result) words.new ≡ insert_all_rule set words.old positions.now }
{
    set.check_positions(words, positions)?;
    for position in positions {
        let p = *position as usize;
        words[p / 64] |= 1 << (p % 64);
    }
    Ok(set)
}
