ghost use Rattle.std.specs.Prelude.{◌≡◌, ◌≤◌, length};
ghost use Rattle.sets.specs.Members.{words_of, read, write, set_of, empty};
ghost use Rattle.sets.specs.Outcomes.{outcome};
ghost use Rattle.sets.specs.Refusals.{edited_of};
ghost use Rattle.sets.specs.Rules.{with_capacity_rule, with_capacity_and_blocks_rule};

use blocks::{block, change_blocks, copy_blocks};
use sets::{FixedBitSet, Refusal, blocks_of, check_new};

// A fresh set of `bits` bits with no members. Asks 6 and 7.
pub fn with_capacity(bits: usize, words: &mut [u64]) -> Result<FixedBitSet, Refusal>
    ensures { outcome (edited_of (set_of (empty 0)) result) words.new ≡ with_capacity_rule bits words.old }
{
    check_new(bits, words)?;
    change_blocks(words, 0, blocks_of(bits), 0, 0);
    Ok(FixedBitSet::new(bits))
}

// The words of a set of `bits` bits that has what the blocks have below `bits`.
fn fill_from(bits: usize, blocks: &[u64], words: &mut [u64])
    requires { words_of bits ≤ length words.old }
    ensures { words.new ≡ write words.old (read blocks.now (set_of (empty bits))) }
{
    let whole = bits / 64;
    copy_blocks(words, blocks, 0, whole);
    let copied = whole.min(blocks.len());
    change_blocks(words, copied, whole, 0, 0);
    let rem = bits % 64;
    if rem != 0 {
        let above = 64 - rem;
        words[whole] = block(blocks, whole) & (u64::MAX >> above);
    }
}

// A fresh set of `bits` bits from blocks: missing ones are 0, further ones and the bits from `bits` up are dropped. Asks 6 and 7.
pub fn with_capacity_and_blocks(
    bits: usize,
    blocks: &[u64],
    words: &mut [u64],
) -> Result<FixedBitSet, Refusal>
    ensures { outcome (edited_of (set_of (empty 0)) result) words.new ≡ with_capacity_and_blocks_rule bits blocks.now words.old }
{
    check_new(bits, words)?;
    fill_from(bits, blocks, words);
    Ok(FixedBitSet::new(bits))
}
