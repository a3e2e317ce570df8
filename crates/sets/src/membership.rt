ghost use Rattle.std.specs.Prelude.{◌≡◌};
ghost use Rattle.sets.specs.Members.{read};

use crate::fixed_bit_set::FixedBitSet;
use blocks::block;

// Whether a position is a member, for any set and words: no question is asked.
pub fn member(set: FixedBitSet, words: &[u64], p: usize) -> bool
    ensures { result ≡ (read words.now set).has p }
{
    if set.length <= p {
        return false;
    }
    let rem = p % 64;
    block(words, p / 64) & (1 << rem) != 0
}
