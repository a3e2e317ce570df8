ghost use Rattle.std.specs.Prelude.{◌≡◌, ℕ, ◌-◌, ◌^◌, length};
ghost use Rattle.masks.specs.RangeMasks.{range_mask};
ghost use Rattle.blocks.specs.Sweeps.{swept};
ghost use Rattle.changes.specs.Changes.{changed_word};

use blocks::change_blocks;
use changes::{Change, change_block};
use masks::Masks;

// Whole words, with no mask.
fn change_whole(words: &mut [u64], first: usize, end: usize, change: Change)
    ensures { words.new ≡ swept first end (λ (k w : ℕ). changed_word change (2 ^ 64 - 1) w) words.old }
{
    match change {
        Change::Insert => change_blocks(words, first, end, 0, u64::MAX),
        Change::Remove => change_blocks(words, first, end, 0, 0),
        Change::Toggle => change_blocks(words, first, end, u64::MAX, u64::MAX),
    }
}

// The first word that the range meets with its mask, the whole words between, and the last word with its mask.
pub(crate) fn change_covered(words: &mut [u64], start: usize, end: usize, change: Change)
    ensures { words.new ≡ swept 0 (length words.old) (λ (k w : ℕ). changed_word change (range_mask start end k) w) words.old }
{
    let masks = Masks::by_shifts(start, end);
    let first = masks.first_block;
    let end_block = masks.end_block;
    if first < end_block {
        change_block(words, first, masks.first_mask, change);
        let last = end_block - 1;
        if first < last {
            change_whole(words, first + 1, last, change);
            change_block(words, last, masks.last_mask, change);
        }
    }
}
