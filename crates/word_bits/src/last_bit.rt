ghost use Rattle.std.specs.Prelude.{◌≡◌};
ghost use Rattle.word_bits.specs.LastBit.{last_bit, last_bit_rule};

use crate::counts::trailing_zeros;

// The answer as C takes it. Number 9 refuses a word of 0.
#[repr(C)]
#[derive(Clone, Copy, Debug, PartialEq, Eq)]
pub struct LastBit {
    pub number: u64,
    pub position: usize,
    pub rest: u64,
}

impl From<Option<(usize, u64)>> for LastBit {
    ghost from_gives = { λ a r. r ≡ last_bit a };

    fn from(answer: Option<(usize, u64)>) -> LastBit {
        match answer {
            Some((position, rest)) => LastBit {
                number: 0,
                position,
                rest,
            },
            None => LastBit {
                number: 9,
                position: 0,
                rest: 0,
            },
        }
    }
}

// The position of a word's lowest set bit, and the word without that bit.
pub fn last_positive_bit_and_unset(word: u64) -> Option<(usize, u64)>
    ensures { last_bit result ≡ last_bit_rule word }
{
    if word == 0 {
        return None;
    }
    let last_bit = word & word.wrapping_neg();
    Some((trailing_zeros(last_bit), word & (word - 1)))
}
