ghost use Rattle.std.specs.Prelude.{◌≡◌, List, ℕ};
ghost use Rattle.text_lines.specs.Texts.{Text, take_bytes, at_end};
ghost use Rattle.text_lines.specs.Readers.{Keeps, HoldsText};

use crate::open_line::OpenLine;

// A reader of the lines of a text that comes in pieces of any cut.
pub trait LineReader {
    // what it keeps, as the buffers that it is lent
    ghost Kept: { Type 0 };

    ghost kept: { Self → Kept };

    // what the lines so far say, and what one line more makes of that
    ghost File: { Type 0 };

    ghost step: { Kept → List ℕ → File → File };

    // it holds what the lines so far say
    ghost HoldsFile: { File → Self → Type 0 };

    // An ended line, of which there are the first 2,052 bytes.
    fn take_line(&mut self, line: &[u8])
        ensures { Keeps kept step HoldsFile self.old line.now self.new };

    // A piece more of the text. `line` is the line that is not ended.
    fn take(&mut self, line: &mut OpenLine, piece: &[u8])
        ensures same { kept self.new ≡ kept self.old }
        ensures holds { (t : Text File) → HoldsText HoldsFile t self.old line.old → HoldsText HoldsFile (take_bytes (step (kept self.old)) t piece.now) self.new line.new }
    {
        for byte in piece {
            if *byte == b'\n' {
                self.take_line(line.held());
                line.clear();
            } else {
                line.push(*byte);
            }
        }
    }

    // The end of the text: bytes behind the last line feed are a line.
    fn finish(&mut self, line: &OpenLine)
        ensures same { kept self.new ≡ kept self.old }
        ensures holds { (t : Text File) → HoldsText HoldsFile t self.old line.now → HoldsFile (at_end (step (kept self.old)) t) self.new }
    {
        if line.length > 0 {
            self.take_line(line.held());
        }
    }
}
