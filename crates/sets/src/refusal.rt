ghost use Rattle.std.specs.Prelude.{◌≡◌};
ghost use Rattle.sets.specs.Refusals.{number};

// Which question says no: of a length, its words and the bits from the length up; of a position and a range; of a new length and the buffer for it; of the
// record of a part; of pairs, that two have one old offset or one new one, and that a member has none. The helper's word of 0 is no answer, and no refusal.
#[derive(Clone, Copy, Debug, PartialEq, Eq)]
pub enum Refusal {
    Length,
    Words,
    StrayBits,
    Position,
    Range,
    NewLength,
    Room,
    Record,
    SharedOld,
    SharedNew,
    NoPair,
}

impl From<Refusal> for u64 {
    ghost from_gives = { λ r n. n ≡ number r };

    fn from(refusal: Refusal) -> u64 {
        match refusal {
            Refusal::Length => 1,
            Refusal::Words => 2,
            Refusal::StrayBits => 3,
            Refusal::Position => 4,
            Refusal::Range => 5,
            Refusal::NewLength => 6,
            Refusal::Room => 7,
            Refusal::Record => 8,
            Refusal::SharedOld => 10,
            Refusal::SharedNew => 11,
            Refusal::NoPair => 12,
        }
    }
}
