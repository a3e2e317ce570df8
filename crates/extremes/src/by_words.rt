ghost use Rattle.std.specs.Prelude.{not, ◌≡◌, ℕ, ◌-◌, ◌≤◌, eqb, length, get_or};
ghost use Rattle.word_bits.specs.Counts.{zeros_above};
ghost use Rattle.sets.specs.Refusals.{found_of};
ghost use Rattle.tests.specs.Rules.{minimum_rule, maximum_rule};

use sets::{FixedBitSet, Refusal, blocks_of};
use tests::first_other;
use word_bits::{leading_zeros, trailing_zeros};

// One above the last word of 0..end that is not 0: 0 where there is none. A loop that yields by `break`: the specification names it.
fn above_last(words: &[u64], end: usize) -> usize
    requires { end ≤ length words.now }
    ensures { result ≡ end - zeros_above end (λ (k : ℕ). not (eqb (get_or words.now k 0) 0)) }
{
    let mut k = end;
    loop {
        if k == 0 {
            break k;
        }
        if words[k - 1] != 0 {
            break k;
        }
        k -= 1;
    }
}

// The least member: the lowest bit of the first word that is not 0. Asks 1 to 3.
pub fn minimum(set: FixedBitSet, words: &[u64]) -> Result<Option<usize>, Refusal>
    ensures { found_of result ≡ minimum_rule set words.now }
{
    set.check(words)?;
    let blocks = blocks_of(set.length);
    let k = first_other(words, 0, blocks, 0);
    if blocks <= k {
        return Ok(None);
    }
    Ok(Some(k * 64 + trailing_zeros(words[k])))
}

// The greatest member: the highest bit of the last word that is not 0. Asks 1 to 3.
pub fn maximum(set: FixedBitSet, words: &[u64]) -> Result<Option<usize>, Refusal>
    ensures { found_of result ≡ maximum_rule set words.now }
{
    set.check(words)?;
    let above = above_last(words, blocks_of(set.length));
    if above == 0 {
        return Ok(None);
    }
    let zeros = leading_zeros(words[above - 1]);
    Ok(Some(above * 64 - 1 - zeros))
}
