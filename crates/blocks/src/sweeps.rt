ghost use Rattle.std.specs.Prelude.{◌≡◌, ℕ, min, length, get_or};
ghost use Rattle.std.specs.Int.Bits.{bit_and, bit_xor};
ghost use Rattle.blocks.specs.Sweeps.{swept};

// Word k of a slice, 0 past its end. Asks nothing: nothing is refused.
pub fn block(words: &[u64], k: usize) -> u64
    ensures { result ≡ get_or words.now k 0 }
{
    words.get(k).copied().unwrap_or(0)
}

// Each word k of first..end that the slice has becomes (word & keep) ^ flip: set, cleared, flipped or kept whole.
// Asks nothing: for the calls of this library, which have asked. Those that write one value call it too: `fill` needs the bounds of its slice shown at each call (tried in fresh_sets: the search showed neither), and this takes any.
pub fn change_blocks(words: &mut [u64], first: usize, end: usize, keep: u64, flip: u64)
    ensures { words.new ≡ swept first end (λ (k w : ℕ). bit_xor (bit_and w keep) flip) words.old }
{
    // By the index: a slice first..end needs the test `first < end` before it.
    for k in first..end.min(words.len()) {
        words[k] = (words[k] & keep) ^ flip;
    }
}

// The words first..end become those of the other slice. Asks nothing: for the calls of this library, which have asked.
pub fn copy_blocks(words: &mut [u64], other: &[u64], first: usize, end: usize)
    ensures { words.new ≡ swept first (min end (length other.now)) (λ (k w : ℕ). get_or other.now k 0) words.old }
{
    // By the index: `copy_from_slice` is a call of memmove, which the archive for C would need from outside.
    for k in first..end.min(other.len()).min(words.len()) {
        words[k] = other[k];
    }
}
