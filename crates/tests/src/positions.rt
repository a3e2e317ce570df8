ghost use Rattle.std.specs.Prelude.{◌≡◌};
ghost use Rattle.sets.specs.Refusals.{told_of};
ghost use Rattle.tests.specs.Rules.{contains_rule};

use sets::{FixedBitSet, Refusal};

// Whether a position is a member: no at or above the length. Asks 1 to 3. By the index and not by `member`, which asks whether the word is there: with that a call took 42 instructions, and 2.6 times the Rust's are the bar.
pub fn contains(set: FixedBitSet, words: &[u64], bit: usize) -> Result<bool, Refusal>
    ensures { told_of result ≡ contains_rule set words.now bit }
{
    set.check(words)?;
    if set.length <= bit {
        return Ok(false);
    }
    let rem = bit % 64;
    Ok(words[bit / 64] & (1 << rem) != 0)
}
