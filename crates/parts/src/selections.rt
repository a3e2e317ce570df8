ghost use Rattle.std.specs.Prelude.{◌≡◌};
ghost use Rattle.parts.specs.Helpers.{select_word};
ghost use Rattle.parts.specs.Selections as picks;

// Which positions of a set a part is, given another set, word by word: each loop over words is made for one selection.
pub trait Select {
    ghost selection: { picks.Selection };

    // Nothing is refused.
    fn word(word: u64, other: u64) -> u64
        ensures { result ≡ select_word selection word other };
}

// Members.
pub struct Ones;

impl Select for Ones {
    ghost selection = { picks.Ones };

    fn word(word: u64, other: u64) -> u64 {
        word
    }
}

// Non-members.
pub struct Zeroes;

impl Select for Zeroes {
    ghost selection = { picks.Zeroes };

    fn word(word: u64, other: u64) -> u64 {
        !word
    }
}

// Members that are in the other set.
pub struct Intersection;

impl Select for Intersection {
    ghost selection = { picks.Intersection };

    fn word(word: u64, other: u64) -> u64 {
        word & other
    }
}

// Members that are not.
pub struct Difference;

impl Select for Difference {
    ghost selection = { picks.Difference };

    fn word(word: u64, other: u64) -> u64 {
        word & !other
    }
}
