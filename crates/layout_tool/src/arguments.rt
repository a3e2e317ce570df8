ghost use Rattle.std.specs.Prelude.{◌≤◌, ◌-◌, length};
ghost use Rattle.std.specs.Iterator.{at_most};

// A word of the command line. An option starts with `-` and is longer than that; none is behind `--`. The word behind `--length` belongs to it.
#[derive(Clone, Copy, Debug, PartialEq, Eq)]
pub(crate) enum Word<'a> {
    Operand(&'a [u8]),
    Option(&'a [u8]),
    Length(&'a [u8]),
}

impl<'a> Word<'a> {
    pub(crate) fn operand(self) -> Option<&'a [u8]> {
        match self {
            Word::Operand(operand) => Some(operand),
            _ => None,
        }
    }
}

// The words that are left of a command line, each with a zero byte behind it. `ended` says that `--` was before them.
#[derive(Clone, Copy)]
pub(crate) struct Words<'a> {
    text: &'a [u8],
    ended: bool,
}

// The bytes before the first zero byte, and those behind it.
fn split_word(text: &[u8]) -> (&[u8], &[u8])
    ensures { length result.1.now ≤ length text.now - 1 }
{
    match text.iter().position(|byte| *byte == 0) {
        Some(end) => (&text[..end], &text[end + 1..]),
        None => (text, &text[text.len()..]),
    }
}

impl<'a> Words<'a> {
    pub(crate) fn new(text: &'a [u8]) -> Words<'a> {
        Words { text, ended: false }
    }
}

impl<'a> Iterator for Words<'a> {
    type Item = Word<'a>;

    ghost remaining = { λ s. at_most (length s.text.now) };

    fn next(&mut self) -> Option<Word<'a>> {
        if self.text.is_empty() {
            return None;
        }
        let (word, rest) = split_word(self.text);
        self.text = rest;
        if self.ended || word.len() < 2 || word[0] != b'-' {
            return Some(Word::Operand(word));
        }
        if word == b"--length".as_slice() {
            let (value, rest) = split_word(self.text);
            self.text = rest;
            return Some(Word::Length(value));
        }
        self.ended = word == b"--".as_slice();
        Some(Word::Option(word))
    }
}

// The word with number `wanted` among those that are no options, from 0.
pub(crate) fn operand(text: &[u8], wanted: usize) -> Option<&[u8]> {
    Words::new(text)
        .filter_map(|word| word.operand())
        .nth(wanted)
}
