ghost use Rattle.std.specs.Prelude.{true, ◌≡◌};
ghost use Rattle.word_lists.specs.Parts.{list_part, part_of};

// Whether both have the same numbers in the same places.
pub fn same(a: &[u64], b: &[u64]) -> bool
    ensures { (result ≡ true → a.now ≡ b.now) × (a.now ≡ b.now → result ≡ true) }
{
    a == b
}

// The numbers start..end, none where the list does not have them. By tests: of `get` and `unwrap_or` the search found no proof.
pub fn part(numbers: &[u64], start: usize, end: usize) -> &[u64]
    ensures { list_part result ≡ part_of numbers.entry start end }
{
    if end < start {
        return &numbers[..0];
    }
    if numbers.len() < end {
        return &numbers[..0];
    }
    &numbers[start..end]
}
