ghost use Rattle.std.specs.Prelude.{◌≡◌};
ghost use Rattle.walks.specs.Rules.{stepped_of, ones_next_rule, ones_next_back_rule};
ghost use Rattle.walkers.specs.Rules.{walker_rule, first_walker, moved_walker};

use parts::{End, Step};
use sets::{FixedBitSet, Part, Refusal};
use walks::{first_part, ones_next, ones_next_back};

// What is left of the walk is the part.
#[derive(Clone, Copy)]
pub struct Ones<'a> {
    pub words: &'a [u64],
    pub set: FixedBitSet,
    pub part: Part,
}

// No `Iterator`: the specification has thin steps over the step by value, and each gives what is left beside the position.
impl<'a> Ones<'a> {
    // Asks no question: each step asks them all.
    pub fn new(set: FixedBitSet, words: &'a [u64]) -> Ones<'a>
        ensures { result ≡ first_walker set words.entry }
    {
        Ones {
            words,
            set,
            part: first_part(set),
        }
    }

    // The walker with the record that a step gave.
    pub fn moved(self, part: Part) -> Ones<'a>
        ensures { result ≡ moved_walker self.entry part }
    {
        Ones { part, ..self }
    }

    fn step(self, end: End) -> Result<Step, Refusal>
        ensures { stepped_of self.entry.part result ≡ walker_rule self.entry.set self.entry.words.now self.entry.part end }
    {
        match end {
            End::Front => ones_next(self.set, self.words, self.part),
            End::Back => ones_next_back(self.set, self.words, self.part),
        }
    }

    pub fn next(self) -> Result<Step, Refusal>
        ensures { stepped_of self.entry.part result ≡ ones_next_rule self.entry.set self.entry.words.now self.entry.part }
    {
        self.step(End::Front)
    }

    pub fn next_back(self) -> Result<Step, Refusal>
        ensures { stepped_of self.entry.part result ≡ ones_next_back_rule self.entry.set self.entry.words.now self.entry.part }
    {
        self.step(End::Back)
    }
}

// One step of a walker over the set that stands at the record.
pub fn walker_step(set: FixedBitSet, words: &[u64], part: Part, end: End) -> Result<Step, Refusal>
    ensures { stepped_of part result ≡ walker_rule set words.now part end }
{
    Ones::new(set, words).moved(part).step(end)
}
