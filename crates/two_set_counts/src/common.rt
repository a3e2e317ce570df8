ghost use Rattle.std.specs.Prelude.{◌≡◌, ℕ, ◌*◌, min, length};
ghost use Rattle.word_bits.specs.Counts.{count};
ghost use Rattle.sets.specs.Members.{bit_of};
ghost use Rattle.operations.specs.Operations.{joined};

use operations::Join;
use sets::Checked;
use word_bits::count_ones;

// How many bits of the words that both sets have the operation sets.
pub(crate) fn ones_common<S: Join>(a: Checked, b: Checked) -> usize
    ensures { result ≡ count (min (length a.entry.words.now) (length b.entry.words.now) * 64) (λ (p : ℕ). joined S.operation (bit_of a.entry.words.now p) (bit_of b.entry.words.now p)) }
{
    // By the index: the loop over a `zip` knows the pairs so far as a list, and the laws of rows know words by their number.
    let mut sum = 0;
    for k in 0..a.words.len().min(b.words.len()) {
        sum += count_ones(S::word(a.words[k], b.words[k]));
    }
    sum
}
