use sets::{Counted, Edited, FixedBitSet, Refusal, Told};
use std::fmt;
use std::io::Print;

// How many cases were run, and how many answered other than the document says. A text that cannot be written is left out, and the cases go on: what was written is compared. What is expected stands as a number and a value, and not as a `Result`: so the document has it, and a reader compares the two line by line.
#[derive(Clone, Copy)]
pub struct Report<'r, R> {
    rt: &'r R,
    cases: u64,
    different: u64,
}

// The number of a call.
#[derive(Clone, Copy)]
struct Number(u64);

impl fmt::Display for Number {
    fn fmt<W: fmt::Write>(&self, f: &mut fmt::Formatter<W>) -> fmt::Result {
        match self.0 {
            0 => f.write_str("accepted"),
            number => write!(f, "refused with {number}"),
        }
    }
}

// A position, or none.
#[derive(Clone, Copy)]
struct Place(Option<usize>);

impl fmt::Display for Place {
    fn fmt<W: fmt::Write>(&self, f: &mut fmt::Formatter<W>) -> fmt::Result {
        match self.0 {
            Some(position) => write!(f, "{position}"),
            None => f.write_str("none"),
        }
    }
}

#[derive(Clone, Copy)]
struct Places<'a>(&'a [Option<usize>]);

impl fmt::Display for Places<'_> {
    fn fmt<W: fmt::Write>(&self, f: &mut fmt::Formatter<W>) -> fmt::Result {
        for at in self.0 {
            write!(f, " {}", Place(*at))?;
        }
        Ok(())
    }
}

// The words, or how many where they are too many for a line.
#[derive(Clone, Copy)]
struct Words<'a>(&'a [u64]);

impl fmt::Display for Words<'_> {
    fn fmt<W: fmt::Write>(&self, f: &mut fmt::Formatter<W>) -> fmt::Result {
        let words = self.0;
        if words.len() > 8 {
            return write!(f, "all {} words", words.len());
        }
        f.write_str("words")?;
        for word in words {
            write!(f, " 0x{word:x}")?;
        }
        Ok(())
    }
}

// Numbers that a case gives in an order of its own, 2^64 - 1 for none.
#[derive(Clone, Copy)]
struct Numbers<'a>(&'a [u64]);

impl fmt::Display for Numbers<'_> {
    fn fmt<W: fmt::Write>(&self, f: &mut fmt::Formatter<W>) -> fmt::Result {
        for number in self.0 {
            match *number {
                u64::MAX => f.write_str(" none")?,
                number => write!(f, " {number}")?,
            }
        }
        Ok(())
    }
}

impl<'r, R: Print> Report<'r, R> {
    pub fn new(rt: &'r R) -> Report<'r, R> {
        Report {
            rt,
            cases: 0,
            different: 0,
        }
    }

    // The end of a case's line: whether what came is what the document says.
    fn judge(&mut self, agrees: bool) {
        self.cases = self.cases.wrapping_add(1);
        if agrees {
            let _said = println!(self.rt; ": agrees");
            return;
        }
        self.different = self.different.wrapping_add(1);
        let _said = println!(self.rt; ": DIFFERS from the document");
    }

    pub fn edited(
        &mut self,
        text: &str,
        set: FixedBitSet,
        answer: Result<FixedBitSet, Refusal>,
        words: &[u64],
        number: u64,
        length: usize,
        expected: &[u64],
    ) {
        let answer = Edited::new(set, answer);
        let after = answer.set.length;
        let _said = print!(self.rt;
            "{text} -> {}, length {after}, {}",
            Number(answer.number),
            Words(words)
        );
        self.judge(answer.number == number && after == length && words == expected);
    }

    pub fn told(&mut self, text: &str, answer: Result<bool, Refusal>, number: u64, yes: bool) {
        let answer = Told::from(answer);
        let said = if answer.yes { "yes" } else { "no" };
        let _said = print!(self.rt; "{text} -> {}, {said}", Number(answer.number));
        self.judge(answer.number == number && answer.yes == yes);
    }

    pub fn counted(
        &mut self,
        text: &str,
        answer: Result<usize, Refusal>,
        number: u64,
        count: usize,
    ) {
        let answer = Counted::from(answer);
        let _said = print!(self.rt; "{text} -> {}, {}", Number(answer.number), answer.count);
        self.judge(answer.number == number && answer.count == count);
    }

    pub fn found(
        &mut self,
        text: &str,
        answer: Result<Option<usize>, Refusal>,
        number: u64,
        expected: Option<usize>,
    ) {
        let (given, at) = match answer {
            Ok(at) => (0, at),
            Err(refusal) => (u64::from(refusal), None),
        };
        let _said = print!(self.rt; "{text} -> {}, {}", Number(given), Place(at));
        self.judge(given == number && at == expected);
    }

    pub fn walked(
        &mut self,
        text: &str,
        answer: Result<usize, Refusal>,
        answers: &[u64],
        count: usize,
        expected: &[u64],
    ) {
        let answer = Counted::from(answer);
        let _said = print!(self.rt;
            "{text} -> {}, answers{}, count {}",
            Number(answer.number),
            Numbers(answers),
            answer.count
        );
        self.judge(answer.number == 0 && answer.count == count && answers == expected);
    }

    pub fn numbers(&mut self, text: &str, given: &[u64], expected: &[u64]) {
        let _said = print!(self.rt; "{text} ->{}", Numbers(given));
        self.judge(given == expected);
    }

    pub fn positions(&mut self, text: &str, given: &[Option<usize>], expected: &[Option<usize>]) {
        let _said = print!(self.rt; "{text} ->{}", Places(given));
        self.judge(given == expected);
    }

    pub fn total(&self) {
        if self.different == 0 {
            let _said = println!(self.rt; "{} cases: all agree with the document", self.cases);
            return;
        }
        let _said = println!(self.rt;
            "{} cases: {} DIFFER from the document",
            self.cases, self.different
        );
    }
}
