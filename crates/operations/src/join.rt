ghost use Rattle.std.specs.Prelude.{◌≡◌, true, false};
ghost use Rattle.operations.specs.Operations.{joined, made_word};
ghost use Rattle.operations.specs.declared.operation.Operation as kinds;
ghost use Rattle.operations.specs.declared.operation.Operation.TheVariants as variants;

// What two bits make, as a type: each loop over words is made for one operation.
pub trait Join {
    ghost operation: { kinds.Operation };

    // Nothing is refused.
    fn word(word: u64, other: u64) -> u64
        ensures { result ≡ made_word operation word other };

    // Whether a member of the first set alone stays.
    fn first_alone() -> bool
        ensures { result ≡ joined operation true false };

    // Whether a member of the second set alone comes.
    fn second_alone() -> bool
        ensures { result ≡ joined operation false true };
}

pub struct Union;

impl Join for Union {
    ghost operation = { variants.Union };

    fn word(word: u64, other: u64) -> u64 {
        word | other
    }

    fn first_alone() -> bool {
        true
    }

    fn second_alone() -> bool {
        true
    }
}

pub struct Intersection;

impl Join for Intersection {
    ghost operation = { variants.Intersection };

    fn word(word: u64, other: u64) -> u64 {
        word & other
    }

    fn first_alone() -> bool {
        false
    }

    fn second_alone() -> bool {
        false
    }
}

pub struct Difference;

impl Join for Difference {
    ghost operation = { variants.Difference };

    fn word(word: u64, other: u64) -> u64 {
        word & !other
    }

    fn first_alone() -> bool {
        true
    }

    fn second_alone() -> bool {
        false
    }
}

pub struct SymmetricDifference;

impl Join for SymmetricDifference {
    ghost operation = { variants.SymmetricDifference };

    fn word(word: u64, other: u64) -> u64 {
        word ^ other
    }

    fn first_alone() -> bool {
        true
    }

    fn second_alone() -> bool {
        true
    }
}
