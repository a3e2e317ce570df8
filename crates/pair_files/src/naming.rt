ghost use Rattle.std.specs.Prelude.{◌≡◌, ◌&&◌, eqb, ltb};

use pair_lines::Pair;

// The pair of a line, and the words that its old offset and its new one had in the tables before.
#[derive(Clone, Copy)]
pub(crate) struct Naming {
    pub pair: Pair,
    pub was: u64,
    pub came: u64,
}

impl Naming {
    // Whether 10, 11 and 4 do not refuse it.
    pub(crate) fn passes(self, size: usize) -> bool
        ensures { result ≡ (eqb self.was 0 && (eqb self.came 0 && ltb self.pair.new size)) }
    {
        self.was == 0 && self.came == 0 && (self.pair.new as usize) < size
    }
}
