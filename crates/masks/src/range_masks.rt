ghost use Rattle.std.specs.Prelude.{◌≡◌, ℕ, ◌/◌, ◌≤◌};
ghost use Rattle.masks.specs.RangeMasks.{range_mask, masks_of};

use word_bits::low_mask;

// The words that a range meets are first_block..end_block. The mask of each word strictly between the first and the last is all ones.
#[repr(C)]
#[derive(Clone, Copy, Debug, PartialEq, Eq)]
pub struct Masks {
    pub first_block: usize,
    pub end_block: usize,
    pub first_mask: u64,
    pub last_mask: u64,
}

// The mask of word k, whatever the range and the word: 0 where the range does not meet it.
pub fn range_mask(start: usize, end: usize, word: usize) -> u64
    ensures { result ≡ range_mask start end word }
{
    if usize::MAX / 64 < word {
        return 0;
    }
    let base = word * 64;
    low_mask(end.saturating_sub(base)) & !low_mask(start.saturating_sub(base))
}

impl Masks {
    // Those of a range that covers no position.
    fn none(first: usize) -> Masks
        ensures { (start end : ℕ) → end ≤ start → first ≡ start / 64 → result ≡ masks_of start end }
    {
        Masks {
            first_block: first,
            end_block: first,
            first_mask: 0,
            last_mask: 0,
        }
    }

    pub fn new(start: usize, end: usize) -> Masks
        ensures { result ≡ masks_of start end }
    {
        let first = start / 64;
        if end <= start {
            return Masks::none(first);
        }
        let last = (end - 1) / 64;
        Masks {
            first_block: first,
            end_block: last + 1,
            first_mask: range_mask(start, end, first),
            last_mask: range_mask(start, end, last),
        }
    }

    // The same masks with no table, for the calls that work. The shifts go by the first and the last position, not by the end: none is by 64.
    pub fn by_shifts(start: usize, end: usize) -> Masks
        ensures { result ≡ masks_of start end }
    {
        let first = start / 64;
        if end <= start {
            return Masks::none(first);
        }
        let top = end - 1;
        let last = top / 64;
        let below = start % 64;
        let above = 63 - top % 64;
        let from_start = u64::MAX << below;
        let upto_end = u64::MAX >> above;
        if first == last {
            let mask = upto_end & from_start;
            return Masks {
                first_block: first,
                end_block: last + 1,
                first_mask: mask,
                last_mask: mask,
            };
        }
        Masks {
            first_block: first,
            end_block: last + 1,
            first_mask: from_start,
            last_mask: upto_end,
        }
    }
}
