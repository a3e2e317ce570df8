ghost use Rattle.offset_lines.specs.Lines.{line_of};
ghost use Rattle.text_lines.specs.Readers.{Makes};
ghost use Rattle.offset_files.specs.Files.{File as FileOf, entry_line};
ghost use Rattle.offset_files.specs.Holds.{Kept, kept, step, HoldsFile};

use crate::reader::OffsetReader;
use offset_lines::{Entry, parse_line};
use text_lines::{LineReader, Reason, body_of};

impl<'a, 'n, 'b> OffsetReader<'a, 'n, 'b> {
    // A line by what it is.
    fn entry_line(&mut self, body: &[u8])
        ensures { Makes kept HoldsFile (entry_line self.old.report.now.name.now body.now (line_of body.now)) self.old self.new }
    {
        match parse_line(body) {
            Ok(Entry::Blank) => self.blank_line(),
            Ok(Entry::Item(offset)) => self.offset_line(body, offset),
            Ok(Entry::Says(count)) => self.said_line(body, count),
            Err(fault) => self.bad_line(body, Reason::Words(fault.text())),
        }
    }
}

impl<'a, 'n, 'b> LineReader for OffsetReader<'a, 'n, 'b> {
    ghost Kept = { Kept };

    ghost kept = { kept };

    ghost File = { FileOf };

    ghost step = { step };

    ghost HoldsFile = { HoldsFile };

    fn take_line(&mut self, line: &[u8]) {
        let body = body_of(self.report.tally.lines, line);
        self.entry_line(body);
    }
}
