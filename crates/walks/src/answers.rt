ghost use Rattle.std.specs.Prelude.{◌≡◌};
ghost use Rattle.walks.specs.Rules.{first_part};

use sets::{FixedBitSet, Part};

// A position or none, and what is left of both parts after it, by name, as C has them: `one` is the record of the first part, over the first set; `two` that of the second, over the second.
#[derive(Clone, Copy)]
pub struct PairStep {
    pub at: Option<usize>,
    pub one: Part,
    pub two: Part,
}

// The record of a part over the set before its first step.
pub fn first_part(set: FixedBitSet) -> Part
    ensures { result ≡ first_part set }
{
    Part {
        low: 0,
        high: set.length,
    }
}
