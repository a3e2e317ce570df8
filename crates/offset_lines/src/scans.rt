ghost use Rattle.std.specs.Prelude.{Some, None, cond, ◌≡◌, ◌+◌, length};
ghost use Rattle.std.specs.List.{take_while};
ghost use Rattle.offset_lines.specs.Lines.{is_blank, is_digit, digit_value, drop_blanks, digits_of, value_of, is_text, is_void, without_return, has_return, held_value};

// How many digits a text starts with, and their value, where it is at most 65,536.
#[derive(Clone, Copy)]
pub struct Digits {
    pub count: usize,
    pub value: Option<usize>,
}

// A line without the carriage return that ends it.
#[tactic(auto, using(crate::proofs::Texts::end_empty, crate::proofs::Texts::end_return, crate::proofs::Texts::end_other))]
pub fn without_return(line: &[u8]) -> &[u8]
    ensures bytes { result.now ≡ without_return line.now }
    ensures start { result.ref_ptr ≡ line.entry.ref_ptr }
{
    match line {
        [rest @ .., b'\r'] => rest,
        _ => line,
    }
}

// Whether a carriage return is there.
pub fn has_return(text: &[u8]) -> bool
    ensures { result ≡ has_return text.now }
{
    text.contains(&b'\r')
}

// A space or a tab.
#[tactic(auto, unfolding(crate::specs::Lines::is_blank))]
fn is_blank(byte: u8) -> bool
    ensures { result ≡ is_blank byte }
{
    byte == b' ' || byte == b'\t'
}

// How many blanks a text starts with.
fn blanks(text: &[u8]) -> usize
    ensures { result ≡ length (take_while is_blank text.now) }
{
    text.iter().take_while(|byte| is_blank(**byte)).count()
}

// A text from its first byte that is not blank.
pub fn skip_blanks(text: &[u8]) -> &[u8]
    ensures bytes { result.now ≡ drop_blanks text.now }
    ensures start { result.ref_ptr ≡ (text.entry.ref_ptr.0, text.entry.ref_ptr.1 + length (take_while is_blank text.now)) }
{
    &text[blanks(text)..]
}

// The value of a digit. `char::to_digit` requires a radix of 2 to 36, and `read_digits` takes any base.
#[tactic(auto, unfolding(crate::specs::Lines::is_digit, crate::specs::Lines::digit_value))]
fn digit(byte: u8, base: u8) -> Option<u8>
    ensures { result ≡ cond (is_digit base byte) (Some (digit_value byte)) None }
{
    match byte {
        48..=57 => Some(byte - 48),
        65..=70 if base == 16 => Some(byte - 55),
        97..=102 if base == 16 => Some(byte - 87),
        _ => None,
    }
}

// A value up to 65,536. From 65,537 up each is as good as that.
#[tactic(auto, using(crate::proofs::DigitLaws::some_held))]
fn held_value(value: usize) -> Option<usize>
    ensures { result ≡ held_value value }
{
    (value <= 65536).then_some(value)
}

// The digits that a text starts with. One loop counts and reads them: a chain would be a `fold` of a pair, whose closure needs as its contract what is here found by the search.
pub fn read_digits(text: &[u8], base: u8) -> Digits
    ensures { result ≡ record { count = length (digits_of base text.now); value = held_value (value_of base (digits_of base text.now)) } }
{
    let mut count = 0;
    let mut value: usize = 0;
    for byte in text {
        let Some(next) = digit(*byte, base) else {
            break;
        };
        count += 1;
        value = (value * base as usize + next as usize).min(65537);
    }
    Digits {
        count,
        value: held_value(value),
    }
}

// Whether a text is these bytes.
#[tactic(auto, using(crate::proofs::Texts::text_as))]
pub(crate) fn is_text(these: &[u8], text: &[u8]) -> bool
    ensures { result ≡ is_text these.now text.now }
{
    text == these
}

// Whether nothing is there, or a comment.
#[tactic(auto, using(crate::proofs::Texts::void_empty, crate::proofs::Texts::void_first))]
pub fn is_void(text: &[u8]) -> bool
    ensures { result ≡ is_void text.now }
{
    match text {
        [] => true,
        [first, ..] => *first == b'#',
    }
}
