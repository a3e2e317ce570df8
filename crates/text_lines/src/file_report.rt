ghost use Rattle.std.specs.Prelude.{◌≡◌, ◌++◌, false};
ghost use Rattle.byte_texts.specs.Ascii.{ascii};
ghost use Rattle.byte_texts.specs.Texts.{decimal};
ghost use Rattle.text_lines.specs.Messages.{reason_text};
ghost use Rattle.text_lines.specs.Readers.{Makes};
ghost use Rattle.text_lines.specs.Tallies.{blank_counts, bad_counts, said_counts};
ghost use Rattle.text_lines.specs.Reports.{kept, Says, HoldsReport};

use crate::numbers::more;
use crate::places::Place;
use crate::reasons::Reason;
use crate::tally::Tally;
use byte_texts::Text;

// The report on a file: its name as it is shown, what is counted of its lines, and what is said of them.
#[derive(Drop)]
pub struct FileReport<'n, 'b> {
    pub name: &'n [u8],
    pub tally: Tally,
    pub text: Text<'b>,
}

impl<'n, 'b> FileReport<'n, 'b> {
    // Nothing is read.
    pub fn new(name: &'n [u8], out: &'b mut [u8]) -> FileReport<'n, 'b>
        ensures name { result.name.now ≡ name.now }
        ensures none { result.tally ≡ record { lines = 0; named = 0; said = false; bads = 0 } }
        ensures same_buffer { result.text.out.ghost_name ≡ out.entry.ghost_name }
        ensures same_bytes { result.text.out.now ≡ out.old }
        ensures empty { result.text.end ≡ 0 }
    {
        FileReport {
            name,
            tally: Tally::default(),
            text: Text::new(out),
        }
    }

    // The line that is counted last.
    fn place(&self) -> Place<'n>
        ensures { (result.name.now ≡ self.now.name.now) × (result.line ≡ self.now.tally.lines) }
    {
        Place {
            name: self.name,
            line: self.tally.lines,
        }
    }

    // A word, and the line that it is said of, which is the last that is counted.
    pub fn append_place(&mut self, word: &[u8])
        ensures { Says self.old self.new (word.now ++ self.old.name.now ++ ascii ", line " ++ decimal self.old.tally.lines) }
    {
        self.place().append(&mut self.text, word);
    }

    // A line with nothing to say.
    pub fn blank_line(&mut self)
        ensures same_text { self.new.text ≡ self.old.text }
        ensures counted { Makes kept HoldsReport blank_counts self.old self.new }
    {
        self.tally.lines = more(self.tally.lines);
    }

    // A line that may not stand there. The first 20 are said.
    pub fn bad_line(&mut self, body: &[u8], reason: Reason)
        ensures { Makes kept HoldsReport (bad_counts self.old.name.now body.now (reason_text reason.entry)) self.old self.new }
    {
        let line = more(self.tally.lines);
        let bads = self.tally.bads;
        self.tally.lines = line;
        self.tally.bads = more(bads);
        if bads < 20 {
            self.place().append_bad(&mut self.text, reason, body);
        }
    }

    // The last line of a list. `items` are the words between the number that it says and the number that the list names.
    pub fn said_line(&mut self, body: &[u8], says: usize, items: &[u8])
        ensures { Makes kept HoldsReport (said_counts self.old.name.now body.now says items.now) self.old self.new }
    {
        let names = self.tally.named;
        if says == names {
            self.blank_line();
        } else {
            self.bad_line(body, Reason::WrongCount(says, items, names));
        }
        self.tally.said = true;
    }
}
