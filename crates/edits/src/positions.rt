ghost use Rattle.std.specs.Prelude.{◌≡◌, eqb};
ghost use Rattle.sets.specs.Members.{read, changed};
ghost use Rattle.sets.specs.Outcomes.{outcome};
ghost use Rattle.sets.specs.Refusals.{edited_of};
ghost use Rattle.changes.specs.Changes.{effect};
ghost use Rattle.edits.specs.Rules.{at_position, insert_rule, remove_rule, toggle_rule, set_rule, copy_bit_rule, put_outcome, put_rule, replaced_of};

use changes::{Change, change_word};
use sets::{FixedBitSet, Refusal, member};

// The answer of `put` as C takes it, with its number.
#[repr(C)]
#[derive(Clone, Copy)]
pub struct Replaced {
    pub number: u64,
    pub set: FixedBitSet,
    pub was: bool,
}

impl Replaced {
    // The set as handed in stands beside a refusal.
    pub fn new(set: FixedBitSet, answer: Result<(FixedBitSet, bool), Refusal>) -> Replaced
        ensures { result ≡ replaced_of set answer }
    {
        match answer {
            Ok((after, was)) => Replaced {
                number: 0,
                set: after,
                was,
            },
            Err(refusal) => Replaced {
                number: refusal.into(),
                set,
                was: false,
            },
        }
    }
}

fn change_position(
    set: FixedBitSet,
    words: &mut [u64],
    bit: usize,
    change: Change,
) -> Result<FixedBitSet, Refusal>
    ensures { outcome (edited_of set result) words.new ≡ at_position set words.old bit (changed (eqb bit) (effect change) (read words.old set)) }
{
    set.check_position(words, bit)?;
    let k = bit / 64;
    let rem = bit % 64;
    words[k] = change_word(words[k], 1 << rem, change);
    Ok(set)
}

// Makes the position a member. Asks 1 to 3, then 4.
pub fn insert(set: FixedBitSet, words: &mut [u64], bit: usize) -> Result<FixedBitSet, Refusal>
    ensures { outcome (edited_of set result) words.new ≡ insert_rule set words.old bit }
{
    change_position(set, words, bit, Change::Insert)
}

// Makes the position no member. Asks 1 to 3, then 4.
pub fn remove(set: FixedBitSet, words: &mut [u64], bit: usize) -> Result<FixedBitSet, Refusal>
    ensures { outcome (edited_of set result) words.new ≡ remove_rule set words.old bit }
{
    change_position(set, words, bit, Change::Remove)
}

// Flips the position. Asks 1 to 3, then 4.
pub fn toggle(set: FixedBitSet, words: &mut [u64], bit: usize) -> Result<FixedBitSet, Refusal>
    ensures { outcome (edited_of set result) words.new ≡ toggle_rule set words.old bit }
{
    change_position(set, words, bit, Change::Toggle)
}

// Inserts the position for yes, removes it for no. Asks 1 to 3, then 4.
pub fn set(
    set: FixedBitSet,
    words: &mut [u64],
    bit: usize,
    enabled: bool,
) -> Result<FixedBitSet, Refusal>
    ensures { outcome (edited_of set result) words.new ≡ set_rule set words.old bit enabled }
{
    change_position(set, words, bit, Change::from(enabled))
}

// Gives `to` the state that `from` had; a `from` at or above the length counts as no. Asks 1 to 3, then 4 of `to`.
pub fn copy_bit(
    set: FixedBitSet,
    words: &mut [u64],
    from: usize,
    to: usize,
) -> Result<FixedBitSet, Refusal>
    ensures { outcome (edited_of set result) words.new ≡ copy_bit_rule set words.old from to }
{
    let enabled = member(set, words, from);
    change_position(set, words, to, Change::from(enabled))
}

// Inserts the position, and tells whether it was a member. Asks 1 to 3, then 4.
pub fn put(set: FixedBitSet, words: &mut [u64], bit: usize) -> Result<(FixedBitSet, bool), Refusal>
    ensures { put_outcome (replaced_of set result) words.new ≡ put_rule set words.old bit }
{
    set.check_position(words, bit)?;
    let k = bit / 64;
    let rem = bit % 64;
    let word = words[k];
    words[k] = change_word(word, 1 << rem, Change::Insert);
    Ok((set, word & (1 << rem) != 0))
}
