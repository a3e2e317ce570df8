ghost use Rattle.std.specs.Prelude.{◌≡◌};
ghost use Rattle.offset_lines.specs.Lines.{held_value};
ghost use Rattle.offset_lines.specs.Numbers.{size_of, number_of, after_number};

use crate::scans::{Digits, read_digits};

// The digits of the number that a text starts with, decimal or hexadecimal with 0x, and the text behind them.
pub fn read_number(text: &[u8]) -> (Digits, &[u8])
    ensures { (result.0.count ≡ size_of text.now) × (result.0.value ≡ held_value (number_of text.now)) × (result.1.now ≡ after_number text.now) }
{
    let (bare, base) = match text.strip_prefix(b"0x".as_slice()) {
        Some(bare) => (bare, 16),
        None => (text, 10),
    };
    let digits = read_digits(bare, base);
    (digits, &bare[digits.count..])
}
