ghost use Rattle.std.specs.Prelude.{◌≡◌};
ghost use Rattle.offset_lines.specs.Lines.{said_number};
ghost use Rattle.offset_lines.specs.Held.{held_said};

use crate::items::Items;
use crate::scans::{Digits, is_text, read_digits};

// What such digits say in the last line of a list, before a word.
#[tactic(auto, unfolding(crate::specs::Held::held_said))]
fn said_of(digits: Digits, items: Items, word: &[u8]) -> Option<usize>
    ensures { result ≡ held_said items.entry.one.now items.entry.many.now digits.count digits.value word.now }
{
    if digits.count == 0 {
        return None;
    }
    if is_text(items.one, word) || is_text(items.many, word) {
        digits.value
    } else {
        None
    }
}

// The number that stands behind `# complete:` with the word for one or for many; none where it is damaged.
pub fn said_number(rest: &[u8], items: Items) -> Option<usize>
    ensures { result ≡ said_number items.entry.one.now items.entry.many.now rest.now }
{
    let text = rest.strip_prefix(b" ".as_slice())?;
    let digits = read_digits(text, 10);
    said_of(digits, items, &text[digits.count..])
}
