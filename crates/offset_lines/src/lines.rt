ghost use Rattle.std.specs.Prelude.{◌≡◌, ℕ, List, Result};
ghost use Rattle.std.specs.Fn.{FnReturnsAt};
ghost use Rattle.offset_lines.specs.Lines.{offset_text, complete_text, text_of, line_by, line_of};
ghost use Rattle.offset_lines.specs.Held.{held_offset, held_number};
ghost use Rattle.offset_lines.specs.declared.entry.Fault.{Fault as FaultOf};

use crate::entry::{Entry, Fault};
use crate::items::Items;
use crate::last_lines::said_number;
use crate::numbers::read_number;
use crate::scans::{Digits, has_return, is_void, skip_blanks, without_return};

// A value as an offset: below 65,536.
#[tactic(auto, unfolding(crate::specs::Held::held_offset, crate::specs::Lines::offset_of))]
pub fn offset_of(value: Option<usize>) -> Result<usize, Fault>
    ensures { result ≡ held_offset value }
{
    match value {
        Some(value) if value < 65536 => Ok(value),
        _ => Err(Fault::TooLarge),
    }
}

// The offset of such digits.
#[tactic(auto, unfolding(crate::specs::Held::held_number))]
fn number_of(digits: Digits) -> Result<usize, Fault>
    ensures { result ≡ held_number digits.count digits.value }
{
    if digits.count == 0 {
        Err(Fault::NotANumber)
    } else {
        offset_of(digits.value)
    }
}

// The offset that a text names.
fn offset_text(text: &[u8]) -> Result<usize, Fault>
    ensures { result ≡ offset_text text.now }
{
    let (digits, behind) = read_number(text);
    if is_void(skip_blanks(behind)) {
        number_of(digits)
    } else {
        Err(Fault::NotANumber)
    }
}

// What stands behind `# complete:`.
#[tactic(auto, unfolding(crate::specs::Lines::complete_text))]
fn complete_text<T>(rest: &[u8], items: Items) -> Result<Entry<T>, Fault>
    ensures { result ≡ complete_text items.entry.one.now items.entry.many.now rest.now }
{
    match said_number(rest, items) {
        Some(count) => Ok(Entry::Says(count)),
        None => Err(Fault::Damaged),
    }
}

// A text from its first byte that is not blank.
fn text_of<T, F: Fn(&[u8]) -> Result<T, Fault>>(
    text: &[u8],
    items: Items,
    item: F,
) -> Result<Entry<T>, Fault>
    requires { F.IsAlwaysCallable item }
    ensures { (item_of : List ℕ → Result T FaultOf) → ((these : List ℕ) (r : _) → FnReturnsAt F.Fn item these r → r ≡ item_of these)
        → result ≡ text_of items.entry.one.now items.entry.many.now item_of text.now }
{
    if !is_void(text) {
        return Ok(Entry::Item(item(text)?));
    }
    match text.strip_prefix(b"# complete:".as_slice()) {
        Some(rest) => complete_text(rest, items),
        None => Ok(Entry::Blank),
    }
}

// What a line is, from its bytes without the line feed. `item` reads what a line names, and `items` are the words for that.
#[tactic(auto, unfolding(crate::specs::Lines::line_by))]
pub fn parse_by<T, F: Fn(&[u8]) -> Result<T, Fault>>(
    line: &[u8],
    items: Items,
    item: F,
) -> Result<Entry<T>, Fault>
    requires { F.IsAlwaysCallable item }
    ensures { (item_of : List ℕ → Result T FaultOf) → ((these : List ℕ) (r : _) → FnReturnsAt F.Fn item these r → r ≡ item_of these)
        → result ≡ line_by items.entry.one.now items.entry.many.now item_of line.now }
{
    if 2048 < line.len() {
        return Err(Fault::TooLong);
    }
    let text = without_return(line);
    if has_return(text) {
        return Err(Fault::CarriageReturn);
    }
    text_of(skip_blanks(text), items, item)
}

// What a line of offsets is.
pub fn parse_line(line: &[u8]) -> Result<Entry<usize>, Fault>
    ensures { result ≡ line_of line.now }
{
    let items = Items {
        one: b" offset",
        many: b" offsets",
    };
    parse_by(line, items, offset_text)
}
