ghost use Rattle.std.specs.Prelude.{◌≡◌, List, [], ◌∷◌, ◌++◌, ℕ, ◌+◌, min, set, take};
ghost use Rattle.text_lines.specs.Rests.{HoldsRest};

use crate::open_line::OpenLine;

impl OpenLine {
    pub fn new() -> OpenLine
        ensures { HoldsRest [] result }
    {
        OpenLine {
            bytes: [0; 2052],
            length: 0,
        }
    }

    // A byte more.
    pub fn push(&mut self, byte: u8)
        ensures length { self.new.length ≡ min 2052 (self.old.length + 1) }
        ensures bytes { self.new.bytes ≡ set self.old.bytes self.old.length byte }
        ensures holds { (rest : List ℕ) → HoldsRest rest self.old → HoldsRest (rest ++ (byte ∷ [])) self.new }
    {
        if self.length < 2052 {
            self.bytes[self.length] = byte;
            self.length += 1;
        }
    }

    // The line is ended, and another starts.
    pub fn clear(&mut self)
        ensures empty { self.new.length ≡ 0 }
        ensures same_bytes { self.new.bytes ≡ self.old.bytes }
        ensures holds { (rest : List ℕ) → HoldsRest rest self.old → HoldsRest [] self.new }
    {
        self.length = 0;
    }

    // What is held of it.
    pub fn held(&self) -> &[u8]
        ensures part { result.now ≡ take self.now.length self.now.bytes }
        ensures start { result.ref_ptr ≡ self.entry.ref_ptr }
        ensures held { (rest : List ℕ) → HoldsRest rest self.now → result.now ≡ take 2052 rest }
    {
        &self.bytes[..self.length]
    }
}
