ghost use Rattle.std.specs.Prelude.{◌≡◌};
ghost use Rattle.masks.specs.Ranges.{covers};
ghost use Rattle.sets.specs.Members.{read, changed};
ghost use Rattle.sets.specs.Outcomes.{outcome};
ghost use Rattle.sets.specs.Refusals.{edited_of};
ghost use Rattle.changes.specs.Changes.{effect};
ghost use Rattle.edits.specs.Rules.{over_range, insert_range_rule, remove_range_rule, toggle_range_rule, set_range_rule};

use crate::covered::change_covered;
use changes::Change;
use sets::{FixedBitSet, Refusal};

fn change_range(
    set: FixedBitSet,
    words: &mut [u64],
    start: usize,
    end: usize,
    change: Change,
) -> Result<FixedBitSet, Refusal>
    ensures { outcome (edited_of set result) words.new ≡ over_range set words.old start end (changed (covers start end) (effect change) (read words.old set)) }
{
    set.check_range(words, start, end)?;
    change_covered(words, start, end, change);
    Ok(set)
}

// Makes each position of the range a member. Asks 1 to 3, then 5.
pub fn insert_range(
    set: FixedBitSet,
    words: &mut [u64],
    start: usize,
    end: usize,
) -> Result<FixedBitSet, Refusal>
    ensures { outcome (edited_of set result) words.new ≡ insert_range_rule set words.old start end }
{
    change_range(set, words, start, end, Change::Insert)
}

// Makes no position of the range a member. Asks 1 to 3, then 5.
pub fn remove_range(
    set: FixedBitSet,
    words: &mut [u64],
    start: usize,
    end: usize,
) -> Result<FixedBitSet, Refusal>
    ensures { outcome (edited_of set result) words.new ≡ remove_range_rule set words.old start end }
{
    change_range(set, words, start, end, Change::Remove)
}

// Flips each position of the range. Asks 1 to 3, then 5.
pub fn toggle_range(
    set: FixedBitSet,
    words: &mut [u64],
    start: usize,
    end: usize,
) -> Result<FixedBitSet, Refusal>
    ensures { outcome (edited_of set result) words.new ≡ toggle_range_rule set words.old start end }
{
    change_range(set, words, start, end, Change::Toggle)
}

// Inserts the range for yes, removes it for no. Asks 1 to 3, then 5.
pub fn set_range(
    set: FixedBitSet,
    words: &mut [u64],
    start: usize,
    end: usize,
    enabled: bool,
) -> Result<FixedBitSet, Refusal>
    ensures { outcome (edited_of set result) words.new ≡ set_range_rule set words.old start end enabled }
{
    change_range(set, words, start, end, Change::from(enabled))
}
