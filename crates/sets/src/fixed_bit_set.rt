ghost use Rattle.std.specs.Prelude.{◌≡◌};
ghost use Rattle.sets.specs.Members.{set_of, empty};

// A set is this value and the words that the caller lends beside it. Calls take the two apart: so C has them, and an edit writes the words.
#[repr(C)]
#[derive(Clone, Copy)]
pub struct FixedBitSet {
    pub length: usize,
}

impl FixedBitSet {
    pub fn new(length: usize) -> FixedBitSet
        ensures { result ≡ set_of (empty length) }
    {
        FixedBitSet { length }
    }
}
