use crate::arguments::{Word, Words};
use offset_lines::read_number;

// What the options ask for, and the length that is named, where exactly one is and it is a number up to 65,536.
#[derive(Clone, Copy, Debug, PartialEq, Eq)]
pub(crate) struct Options {
    pub count: bool,
    pub quiet: bool,
    pub sheet: bool,
    pub allow_empty: bool,
    pub pairs: bool,
    pub back: bool,
    pub length: Option<usize>,
    pub help: bool,
    pub version: bool,
}

fn is_known(option: &[u8]) -> bool {
    matches!(
        option,
        b"--count"
            | b"--quiet"
            | b"--sheet"
            | b"--allow-empty"
            | b"--pairs"
            | b"--back"
            | b"--help"
            | b"--version"
            | b"--"
    )
}

// The first option that is none of these.
pub(crate) fn unknown_option(text: &[u8]) -> Option<&[u8]> {
    Words::new(text).find_map(|word| match word {
        Word::Option(option) if !is_known(option) => Some(option),
        _ => None,
    })
}

fn has_option(text: &[u8], option: &[u8]) -> bool {
    Words::new(text).any(|word| word == Word::Option(option))
}

pub(crate) fn has_length(text: &[u8]) -> bool {
    Words::new(text).any(|word| matches!(word, Word::Length(_)))
}

// A number up to 65,536, decimal or hexadecimal with 0x.
fn number_of(word: &[u8]) -> Option<usize> {
    let (digits, behind) = read_number(word);
    if digits.count == 0 || !behind.is_empty() {
        return None;
    }
    digits.value
}

// The length that the command line names, where it names exactly one.
fn length_of(text: &[u8]) -> Option<usize> {
    let mut lengths = Words::new(text).filter_map(|word| match word {
        Word::Length(value) => Some(value),
        _ => None,
    });
    let first = lengths.next()?;
    if lengths.next().is_some() {
        return None;
    }
    number_of(first)
}

// Whether the standard input, `-`, is named more than once.
pub(crate) fn repeats_input(text: &[u8]) -> bool {
    let inputs = Words::new(text).filter(|word| *word == Word::Operand(b"-"));
    inputs.count() > 1
}

// The options of a command line, in any place.
pub(crate) fn options_of(text: &[u8]) -> Options {
    Options {
        count: has_option(text, b"--count"),
        quiet: has_option(text, b"--quiet"),
        sheet: has_option(text, b"--sheet"),
        allow_empty: has_option(text, b"--allow-empty"),
        pairs: has_option(text, b"--pairs"),
        back: has_option(text, b"--back"),
        length: length_of(text),
        help: has_option(text, b"--help"),
        version: has_option(text, b"--version"),
    }
}
