ghost use Rattle.std.specs.Prelude.{◌≡◌};
ghost use Rattle.sets.specs.Refusals.{told_of, counted_of, edited_of};

use crate::answers::{Counted, Edited, Told};
use crate::fixed_bit_set::FixedBitSet;
use crate::refusal::Refusal;

// Each answer as C takes it.
impl From<Result<bool, Refusal>> for Told {
    ghost from_gives = { λ a r. r ≡ told_of a };

    fn from(answer: Result<bool, Refusal>) -> Told {
        match answer {
            Ok(yes) => Told { number: 0, yes },
            Err(refusal) => Told {
                number: refusal.into(),
                yes: false,
            },
        }
    }
}

impl From<Result<usize, Refusal>> for Counted {
    ghost from_gives = { λ a r. r ≡ counted_of a };

    fn from(answer: Result<usize, Refusal>) -> Counted {
        match answer {
            Ok(count) => Counted { number: 0, count },
            Err(refusal) => Counted {
                number: refusal.into(),
                count: 0,
            },
        }
    }
}

impl Edited {
    // The set as handed in stands beside a refusal.
    pub fn new(set: FixedBitSet, answer: Result<FixedBitSet, Refusal>) -> Edited
        ensures { result ≡ edited_of set answer }
    {
        match answer {
            Ok(after) => Edited {
                number: 0,
                set: after,
            },
            Err(refusal) => Edited {
                number: refusal.into(),
                set,
            },
        }
    }
}
