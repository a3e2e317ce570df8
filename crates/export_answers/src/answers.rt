ghost use Rattle.std.specs.Prelude.{◌≡◌};
ghost use Rattle.sets.specs.Refusals.{number_of, found_of};
ghost use Rattle.walks.specs.Rules.{stepped_of, stepped_pair_of};
ghost use Rattle.export_answers.specs.Answers.{export_found, export_stepped, export_stepped_pair};

use parts::Step;
use sets::{Part, Refusal};
use walks::PairStep;

// C has no enum with a field: in each answer a position or none is `found` and `at`, which is 0 where none is found.
#[repr(C)]
#[derive(Clone, Copy)]
pub struct FbsFound {
    pub number: u64,
    pub found: bool,
    pub at: usize,
}

#[repr(C)]
#[derive(Clone, Copy)]
pub struct FbsStepped {
    pub number: u64,
    pub found: bool,
    pub at: usize,
    pub part: Part,
}

#[repr(C)]
#[derive(Clone, Copy)]
pub struct FbsSteppedPair {
    pub number: u64,
    pub found: bool,
    pub at: usize,
    pub one: Part,
    pub two: Part,
}

// A part of a lent slice, which C takes by its own pointer.
#[repr(C)]
#[derive(Clone, Copy)]
pub struct FbsSlice {
    pub offset: usize,
    pub count: usize,
}

#[repr(C)]
#[derive(Clone, Copy)]
pub struct FbsLonger {
    pub second: bool,
    pub offset: usize,
    pub count: usize,
}

impl From<Result<Option<usize>, Refusal>> for FbsFound {
    ghost from_gives = { λ a r. r ≡ export_found (found_of a) };

    fn from(answer: Result<Option<usize>, Refusal>) -> FbsFound {
        match answer {
            Ok(at) => FbsFound {
                number: 0,
                found: at.is_some(),
                at: at.unwrap_or(0),
            },
            Err(refusal) => FbsFound {
                number: refusal.into(),
                found: false,
                at: 0,
            },
        }
    }
}

impl FbsStepped {
    // The record as handed in stands beside a refusal.
    pub fn new(part: Part, answer: Result<Step, Refusal>) -> FbsStepped
        ensures { result ≡ export_stepped (stepped_of part answer) }
    {
        match answer {
            Ok(step) => FbsStepped {
                number: 0,
                found: step.at.is_some(),
                at: step.at.unwrap_or(0),
                part: step.part,
            },
            Err(refusal) => FbsStepped {
                number: refusal.into(),
                found: false,
                at: 0,
                part,
            },
        }
    }
}

impl FbsSteppedPair {
    // Both records as handed in stand beside a refusal.
    pub fn new(one: Part, two: Part, answer: Result<PairStep, Refusal>) -> FbsSteppedPair
        ensures { result ≡ export_stepped_pair (stepped_pair_of one two answer) }
    {
        match answer {
            Ok(pair) => FbsSteppedPair {
                number: 0,
                found: pair.at.is_some(),
                at: pair.at.unwrap_or(0),
                one: pair.one,
                two: pair.two,
            },
            Err(refusal) => FbsSteppedPair {
                number: refusal.into(),
                found: false,
                at: 0,
                one,
                two,
            },
        }
    }
}

// The number of questions that are asked alone: 0 where none refuses.
pub fn number(answer: Result<(), Refusal>) -> u64
    ensures { result ≡ number_of answer }
{
    match answer {
        Ok(()) => 0,
        Err(refusal) => refusal.into(),
    }
}
