ghost use Rattle.std.specs.Prelude.{◌≡◌, ℕ, ◌*◌, min, length};
ghost use Rattle.sets.specs.Members.{bit_of};
ghost use Rattle.parts.specs.Selections.{selected};
ghost use Rattle.next_many.specs.Helpers.{fill_outcome, filled};

use crate::answers::Many;
use blocks::block;
use parts::Select;
use sets::{Part, blocks_of};
use word_bits::trailing_zeros;

// The selected positions of low..high that the words have, rising, into the buffer, as many as fit. `rest` is what is left of word k. No `for` over the words: it would need a flag or a second mask at each word, since the first alone is cut.
pub(crate) fn fill<S: Select>(words: &[u64], other: &[u64], part: Part, out: &mut [u64]) -> Many
    ensures stored { fill_outcome result out.new ≡ filled (λ (p : ℕ). selected S.selection (bit_of words.now p) (bit_of other.now p)) (min part.high (length words.now * 64)) 0 part.low out.old }
    ensures kept { result.part.high ≡ part.high }
{
    let end = blocks_of(part.high).min(words.len());
    let mut k = part.low / 64;
    if end <= k {
        return Many { count: 0, part };
    }
    let mut rest = S::word(words[k], block(other, k)) & (u64::MAX << (part.low % 64));
    let mut count = 0;
    let mut low = part.low;
    loop {
        // One bit after the other off the word: no index to count.
        while rest != 0 {
            let p = k * 64 + trailing_zeros(rest);
            if part.high <= p {
                return Many {
                    count,
                    part: Part { low, ..part },
                };
            }
            if out.len() <= count {
                return Many {
                    count,
                    part: Part { low, ..part },
                };
            }
            out[count] = p as u64;
            count += 1;
            low = p + 1;
            rest = rest & (rest - 1);
        }
        k += 1;
        if end <= k {
            return Many {
                count,
                part: Part { low, ..part },
            };
        }
        rest = S::word(words[k], block(other, k));
    }
}
