ghost use Rattle.std.specs.Prelude.{◌≡◌};
ghost use Rattle.word_bits.specs.Digits.{digit};
ghost use Rattle.word_bits.specs.Counts.{count, zeros_below, zeros_above};

// How many bits of the word are set.
pub fn count_ones(word: u64) -> usize
    ensures { result ≡ count 64 (digit word) }
{
    u64::count_ones(word) as usize
}

// How many zeros stand above the highest set bit: 64 for 0.
pub fn leading_zeros(word: u64) -> usize
    ensures { result ≡ zeros_above 64 (digit word) }
{
    u64::leading_zeros(word) as usize
}

// How many zeros stand below the lowest set bit: 64 for 0.
pub fn trailing_zeros(word: u64) -> usize
    ensures { result ≡ zeros_below 64 (digit word) }
{
    u64::trailing_zeros(word) as usize
}
