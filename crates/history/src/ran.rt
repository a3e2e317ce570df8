ghost use Rattle.std.specs.Prelude.{◌≡◌};
ghost use Rattle.history.specs.Runs.{ran_of};

use sets::{FixedBitSet, Refusal};

// Both sets after a history, and the count of the walk after it.
#[derive(Clone, Copy)]
pub struct Run {
    pub a: FixedBitSet,
    pub b: FixedBitSet,
    pub count: usize,
}

// The answer of a run as C takes it, with its number.
#[repr(C)]
#[derive(Clone, Copy)]
pub struct Ran {
    pub number: u64,
    pub a: FixedBitSet,
    pub b: FixedBitSet,
    pub count: usize,
}

impl From<Result<Run, Refusal>> for Ran {
    ghost from_gives = { λ a r. r ≡ ran_of a };

    fn from(answer: Result<Run, Refusal>) -> Ran {
        match answer {
            Ok(run) => Ran {
                number: 0,
                a: run.a,
                b: run.b,
                count: run.count,
            },
            Err(refusal) => Ran {
                number: refusal.into(),
                a: FixedBitSet::new(0),
                b: FixedBitSet::new(0),
                count: 0,
            },
        }
    }
}
