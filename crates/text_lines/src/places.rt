#![tactic(auto, using(byte_texts::proofs::TextLaws::written_more), unfolding(byte_texts::specs::Ascii::ascii, crate::specs::Messages::bad_text))]

ghost use Rattle.std.specs.Prelude.{◌++◌};
ghost use Rattle.byte_texts.specs.Ascii.{ascii};
ghost use Rattle.byte_texts.specs.Texts.{decimal};
ghost use Rattle.byte_texts.specs.Growth.{Appended};
ghost use Rattle.text_lines.specs.Messages.{bad_text, reason_text};

use crate::reasons::Reason;
use byte_texts::Text;

// A line of a file, by a name of the file.
#[derive(Clone, Copy)]
pub struct Place<'a> {
    pub name: &'a [u8],
    pub line: usize,
}

impl<'a> Place<'a> {
    // A word, and the line that it is said of.
    pub fn append(self, report: &mut Text, word: &[u8])
        ensures { Appended report.old report.new (word.now ++ self.entry.name.now ++ ascii ", line " ++ decimal self.entry.line) }
    {
        report.append(word);
        report.append(self.name);
        report.append(b", line ");
        report.append_decimal(self.line as u64);
    }

    // A bad line.
    pub fn append_bad(self, report: &mut Text, reason: Reason, body: &[u8])
        ensures { Appended report.old report.new (bad_text self.entry.name.now self.entry.line (reason_text reason.entry) body.now) }
    {
        self.append(report, b"ERROR: ");
        report.append(b": ");
        reason.append(report);
        report.append(b": ");
        report.append_text(body);
        report.append(b"\n");
    }
}
