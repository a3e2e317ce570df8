ghost use Rattle.std.specs.Prelude.{◌≡◌};
ghost use Rattle.sets.specs.Outcomes.{outcome};
ghost use Rattle.sets.specs.Refusals.{edited_of};
ghost use Rattle.edits.specs.Rules.{clear_rule, grow_rule, grow_and_insert_rule};

use blocks::change_blocks;
use changes::{Change, change_block};
use sets::{FixedBitSet, Refusal, blocks_of, check_new};

// Ends every membership. Asks 1 to 3.
pub fn clear(set: FixedBitSet, words: &mut [u64]) -> Result<FixedBitSet, Refusal>
    ensures { outcome (edited_of set result) words.new ≡ clear_rule set words.old }
{
    set.check(words)?;
    change_blocks(words, 0, blocks_of(set.length), 0, 0);
    Ok(set)
}

// Makes the length the larger of the set's and `bits`. Asks 1 to 3, then 6 and 7 of that length. The words that the longer set takes in are overwritten,
// whatever the caller had there.
pub fn grow(set: FixedBitSet, words: &mut [u64], bits: usize) -> Result<FixedBitSet, Refusal>
    ensures { outcome (edited_of set result) words.new ≡ grow_rule set words.old bits }
{
    set.check(words)?;
    let length = set.length.max(bits);
    check_new(length, words)?;
    change_blocks(words, blocks_of(set.length), blocks_of(length), 0, 0);
    Ok(FixedBitSet::new(length))
}

// Grows to one above the position, and inserts it. Asks 1 to 3, then 6 and 7, and never 4.
pub fn grow_and_insert(
    set: FixedBitSet,
    words: &mut [u64],
    bit: usize,
) -> Result<FixedBitSet, Refusal>
    ensures { outcome (edited_of set result) words.new ≡ grow_and_insert_rule set words.old bit }
{
    if 65536 <= bit {
        set.check(words)?;
        return Err(Refusal::NewLength);
    }
    let grown = grow(set, words, bit + 1)?;
    change_block(words, bit / 64, 1 << (bit % 64), Change::Insert);
    Ok(grown)
}
