use word_lists::part;

// What is read of a line: its numbers go into the lent slice, one after the other. After a `#` the rest of the line is a comment.
#[derive(Drop)]
pub struct Reading<'a> {
    numbers: &'a mut [u64],
    // The number so far, within one.
    number: Option<u64>,
    in_comment: bool,
    count: usize,
    // A number or a line is too long, or a byte is none that a line has. A flag: the rest of the line is read to its end.
    is_bad: bool,
}

impl<'a> Reading<'a> {
    pub fn new(numbers: &'a mut [u64]) -> Reading<'a> {
        Reading {
            numbers,
            number: None,
            in_comment: false,
            count: 0,
            is_bad: false,
        }
    }

    // A digit more of a number. One that is no word is bad.
    fn digit(&mut self, digit: u64) {
        let tens = self.number.unwrap_or(0).checked_mul(10);
        match tens.and_then(|tens| tens.checked_add(digit)) {
            Some(number) => self.number = Some(number),
            None => self.is_bad = true,
        }
    }

    // The number that ends here goes after those before it.
    fn end_number(&mut self) {
        let Some(number) = self.number else {
            return;
        };
        if self.numbers.len() <= self.count {
            self.is_bad = true;
            return;
        }
        self.numbers[self.count] = number;
        self.number = None;
        self.count += 1;
    }

    // One byte of a line, other than its end.
    pub fn take(&mut self, byte: u8) {
        if self.in_comment {
            return;
        }
        match byte {
            b'#' => {
                self.end_number();
                self.in_comment = true;
            }
            b' ' => self.end_number(),
            b'0'..=b'9' => self.digit((byte - b'0') as u64),
            _ => self.is_bad = true,
        }
    }

    // The line's numbers at its end; none where it is bad.
    pub fn line(&mut self) -> Option<&[u64]> {
        self.end_number();
        if self.is_bad {
            return None;
        }
        Some(part(self.numbers, 0, self.count))
    }

    pub fn next_line(&mut self) {
        self.number = None;
        self.in_comment = false;
        self.count = 0;
        self.is_bad = false;
    }
}
