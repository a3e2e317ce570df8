ghost use Rattle.std.specs.Prelude.{◌≡◌, count_by, length, nat_le};
ghost use Rattle.sets.specs.Questions.{first, questions, position_question, positions_question, range_question, part_question, position_questions, range_questions, part_questions, new_questions, both_questions};
ghost use Rattle.sets.specs.Refusals.{number_of};

use crate::answers::Part;
use crate::fixed_bit_set::FixedBitSet;
use crate::refusal::Refusal;
use crate::sizes::blocks_of;

impl FixedBitSet {
    // Questions 1 to 3. Only the last word can have a bit from the length up, and only where the length is no multiple of 64.
    pub fn check(self, words: &[u64]) -> Result<(), Refusal>
        ensures { number_of result ≡ questions self words.now }
    {
        if 65536 < self.length {
            return Err(Refusal::Length);
        }
        let whole = self.length / 64;
        let rem = self.length % 64;
        if rem == 0 {
            if words.len() < whole {
                return Err(Refusal::Words);
            }
            return Ok(());
        }
        if words.len() <= whole {
            return Err(Refusal::Words);
        }
        if words[whole] >> rem != 0 {
            return Err(Refusal::StrayBits);
        }
        Ok(())
    }

    // Question 4.
    pub fn ask_position(self, bit: usize) -> Result<(), Refusal>
        ensures { number_of result ≡ position_question self bit }
    {
        if self.length <= bit {
            return Err(Refusal::Position);
        }
        Ok(())
    }

    // How many positions of a list are out. No `filter` and `count`: with them a position of `insert_all` took 13.5 instructions, and so it takes 12.
    fn count_out(self, positions: &[u64]) -> usize
        ensures { result ≡ count_by (λ p. nat_le self.length p) positions.now }
    {
        let length = self.length as u64;
        let mut out: usize = 0;
        for p in positions {
            if length <= *p {
                out += 1;
            }
        }
        out
    }

    // Question 4 of each position of a list. Those that are out are counted: a test and a sum for each, with no branch.
    pub fn ask_positions(self, positions: &[u64]) -> Result<(), Refusal>
        ensures { number_of result ≡ positions_question self positions.now }
    {
        if self.count_out(positions) != 0 {
            return Err(Refusal::Position);
        }
        Ok(())
    }

    // Question 5.
    pub fn ask_range(self, start: usize, end: usize) -> Result<(), Refusal>
        ensures { number_of result ≡ range_question start end self.length }
    {
        if end < start || self.length < end {
            return Err(Refusal::Range);
        }
        Ok(())
    }

    // Question 8.
    pub fn ask_part(self, part: Part) -> Result<(), Refusal>
        ensures { number_of result ≡ part_question self part }
    {
        if part.high < part.low || self.length < part.high {
            return Err(Refusal::Record);
        }
        Ok(())
    }

    // Questions 1 to 3, then 4.
    pub fn check_position(self, words: &[u64], bit: usize) -> Result<(), Refusal>
        ensures { number_of result ≡ position_questions self words.now bit }
    {
        self.check(words)?;
        self.ask_position(bit)
    }

    // Questions 1 to 3, then 5.
    pub fn check_range(self, words: &[u64], start: usize, end: usize) -> Result<(), Refusal>
        ensures { number_of result ≡ range_questions self words.now start end }
    {
        self.check(words)?;
        self.ask_range(start, end)
    }

    // Questions 1 to 3, then 8.
    pub fn check_part(self, words: &[u64], part: Part) -> Result<(), Refusal>
        ensures { number_of result ≡ part_questions self words.now part }
    {
        self.check(words)?;
        self.ask_part(part)
    }

    // Questions 1 to 3, then 4 of each position.
    pub fn check_positions(self, words: &[u64], positions: &[u64]) -> Result<(), Refusal>
        ensures { number_of result ≡ first (questions self words.now) (positions_question self positions.now) }
    {
        self.check(words)?;
        self.ask_positions(positions)
    }
}

// Questions 6 and 7.
pub fn check_new(bits: usize, words: &[u64]) -> Result<(), Refusal>
    ensures { number_of result ≡ new_questions bits (length words.now) }
{
    if 65536 < bits {
        return Err(Refusal::NewLength);
    }
    if words.len() < blocks_of(bits) {
        return Err(Refusal::Room);
    }
    Ok(())
}
