ghost use Rattle.std.specs.Prelude.{not, ◌≡◌, ℕ, ◌+◌, ◌-◌, min, eqb, length, get_or};
ghost use Rattle.word_bits.specs.Counts.{zeros_below};

// The first word of first..end that is not `skip`: where there is none the end, or the slice's end if that is less,
// or `first` if it is past that. Asks nothing: nothing is refused. A loop that yields by `break`: the specification names it.
pub fn first_other(words: &[u64], first: usize, end: usize, skip: u64) -> usize
    ensures { result ≡ first + zeros_below (min end (length words.now) - first) (λ (i : ℕ). not (eqb (get_or words.now (first + i) 0) skip)) }
{
    let stop = end.min(words.len());
    let mut k = first;
    loop {
        if stop <= k {
            break k;
        }
        if words[k] != skip {
            break k;
        }
        k += 1;
    }
}
