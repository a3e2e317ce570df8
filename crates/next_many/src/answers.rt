ghost use Rattle.std.specs.Prelude.{◌≡◌};
ghost use Rattle.next_many.specs.Calls.{next_many_of, next_many_pair_of};

use sets::{Part, Refusal};

// How many positions were written, and the record of the part after them.
#[derive(Clone, Copy)]
pub struct Many {
    pub count: usize,
    pub part: Part,
}

// The same of two parts, by name, as C has them: `one` is the record of the first, over the first set; `two` that of the second, over the second.
#[derive(Clone, Copy)]
pub struct ManyPair {
    pub count: usize,
    pub one: Part,
    pub two: Part,
}

// Each as C takes it, with its number.
#[repr(C)]
#[derive(Clone, Copy)]
pub struct NextMany {
    pub number: u64,
    pub count: usize,
    pub part: Part,
}

#[repr(C)]
#[derive(Clone, Copy)]
pub struct NextManyPair {
    pub number: u64,
    pub count: usize,
    pub one: Part,
    pub two: Part,
}

impl NextMany {
    // The record as handed in stands beside a refusal.
    pub fn new(part: Part, answer: Result<Many, Refusal>) -> NextMany
        ensures { result ≡ next_many_of part answer }
    {
        match answer {
            Ok(many) => NextMany {
                number: 0,
                count: many.count,
                part: many.part,
            },
            Err(refusal) => NextMany {
                number: refusal.into(),
                count: 0,
                part,
            },
        }
    }
}

impl NextManyPair {
    // Both records as handed in stand beside a refusal.
    pub fn new(one: Part, two: Part, answer: Result<ManyPair, Refusal>) -> NextManyPair
        ensures { result ≡ next_many_pair_of one two answer }
    {
        match answer {
            Ok(many) => NextManyPair {
                number: 0,
                count: many.count,
                one: many.one,
                two: many.two,
            },
            Err(refusal) => NextManyPair {
                number: refusal.into(),
                count: 0,
                one,
                two,
            },
        }
    }
}
