ghost use Rattle.std.specs.Prelude.{◌≡◌};
ghost use Rattle.pair_lines.specs.Lines.{pair_text, pair_line_of};
ghost use Rattle.pair_lines.specs.Held.{held_pair};

use crate::pair::Pair;
use offset_lines::{
    Digits, Entry, Fault, Items, is_void, offset_of, parse_by, read_number, skip_blanks,
};

// The offsets of such digits.
fn pair_of(first: Digits, second: Digits) -> Result<Pair, Fault>
    ensures { result ≡ held_pair first.count first.value second.count second.value }
{
    if first.count == 0 {
        return Err(Fault::NotTwoNumbers);
    }
    if second.count == 0 {
        return Err(Fault::NotTwoNumbers);
    }
    let old = offset_of(first.value)?;
    let new = offset_of(second.value)?;
    // `offset_of` gives numbers below 65,536 alone: `try_from` would have a case that cannot be.
    Ok(Pair {
        old: old as u16,
        new: new as u16,
    })
}

// The pair that a text names.
fn pair_text(text: &[u8]) -> Result<Pair, Fault>
    ensures { result ≡ pair_text text.now }
{
    let (first, behind) = read_number(text);
    let (second, rest) = read_number(skip_blanks(behind));
    if is_void(skip_blanks(rest)) {
        pair_of(first, second)
    } else {
        Err(Fault::NotTwoNumbers)
    }
}

// What a line of pairs is, from its bytes without the line feed.
pub fn parse_pair(line: &[u8]) -> Result<Entry<Pair>, Fault>
    ensures { result ≡ pair_line_of line.now }
{
    let items = Items {
        one: b" pair",
        many: b" pairs",
    };
    parse_by(line, items, pair_text)
}
