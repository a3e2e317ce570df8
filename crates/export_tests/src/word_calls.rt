ghost use Rattle.std.specs.Prelude.{◌≡◌};
ghost use Rattle.word_bits.specs.Digits.{digit};
ghost use Rattle.word_bits.specs.Counts.{count, zeros_below, zeros_above};
ghost use Rattle.word_bits.specs.LastBit.{last_bit_rule};
ghost use Rattle.word_bits.specs.LowMask.{low_mask};
ghost use Rattle.sets.specs.Questions.{range_question};
ghost use Rattle.masks.specs.RangeMasks.{range_mask, masks_of};

use export_answers::number;
use masks::Masks;
use sets::FixedBitSet;
use word_bits::LastBit;

#[unsafe(no_mangle)]
pub extern "C" fn fbs_word_count_ones(word: u64) -> usize
    ensures { result ≡ count 64 (digit word) }
{
    word_bits::count_ones(word)
}

#[unsafe(no_mangle)]
pub extern "C" fn fbs_word_leading_zeros(word: u64) -> usize
    ensures { result ≡ zeros_above 64 (digit word) }
{
    word_bits::leading_zeros(word)
}

#[unsafe(no_mangle)]
pub extern "C" fn fbs_word_trailing_zeros(word: u64) -> usize
    ensures { result ≡ zeros_below 64 (digit word) }
{
    word_bits::trailing_zeros(word)
}

#[unsafe(no_mangle)]
pub extern "C" fn fbs_last_positive_bit_and_unset(word: u64) -> LastBit
    ensures { result ≡ last_bit_rule word }
{
    LastBit::from(word_bits::last_positive_bit_and_unset(word))
}

#[unsafe(no_mangle)]
pub extern "C" fn fbs_low_mask(r: usize) -> u64
    ensures { result ≡ low_mask r }
{
    word_bits::low_mask(r)
}

#[unsafe(no_mangle)]
pub extern "C" fn fbs_ask_range(start: usize, end: usize, length: usize) -> u64
    ensures { result ≡ range_question start end length }
{
    number(FixedBitSet::new(length).ask_range(start, end))
}

#[unsafe(no_mangle)]
pub extern "C" fn fbs_range_mask(start: usize, end: usize, word: usize) -> u64
    ensures { result ≡ range_mask start end word }
{
    masks::range_mask(start, end, word)
}

#[unsafe(no_mangle)]
pub extern "C" fn fbs_masks(start: usize, end: usize) -> Masks
    ensures { result ≡ masks_of start end }
{
    Masks::new(start, end)
}
