ghost use Rattle.std.specs.Prelude.{◌≡◌};
ghost use Rattle.offset_lines.specs.Lines.{fault_text};

use crate::entry::Fault;

impl Fault {
    // What is said of a line that may not stand there.
    #[tactic(auto, unfolding(crate::specs::Lines::fault_text, byte_texts::specs::Ascii::ascii))]
    pub fn text(self) -> &'static [u8]
        ensures { result.now ≡ fault_text self }
    {
        match self {
            Fault::NotANumber => b"not a number",
            Fault::NotTwoNumbers => b"not two numbers",
            Fault::TooLarge => b"65536 or above",
            Fault::CarriageReturn => b"a carriage return inside the line",
            Fault::TooLong => b"longer than 2048 bytes",
            Fault::Damaged => b"a damaged last line of a list",
        }
    }
}
