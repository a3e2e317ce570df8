ghost use Rattle.pair_lines.specs.Lines.{pair_line_of};
ghost use Rattle.text_lines.specs.Readers.{Makes};
ghost use Rattle.pair_files.specs.Files.{PairFile, entry_line};
ghost use Rattle.pair_files.specs.Holds.{Kept, kept, step, HoldsPairs};

use crate::reader::PairReader;
use offset_lines::Entry;
use pair_lines::parse_pair;
use text_lines::{LineReader, Reason, body_of};

impl<'a, 'n, 'b> PairReader<'a, 'n, 'b> {
    // A line by what it is: as in `offset_files`, with another parser. A trait over both would have a method for each line of this match.
    fn entry_line(&mut self, body: &[u8])
        ensures { Makes kept HoldsPairs (entry_line self.old.report.now.name.now body.now self.old.size (pair_line_of body.now)) self.old self.new }
    {
        match parse_pair(body) {
            Ok(Entry::Blank) => self.blank_line(),
            Ok(Entry::Item(pair)) => self.pair_line(body, pair),
            Ok(Entry::Says(count)) => self.said_line(body, count),
            Err(fault) => self.bad_line(body, Reason::Words(fault.text())),
        }
    }
}

impl<'a, 'n, 'b> LineReader for PairReader<'a, 'n, 'b> {
    ghost Kept = { Kept };

    ghost kept = { kept };

    ghost File = { PairFile };

    ghost step = { step };

    ghost HoldsFile = { HoldsPairs };

    fn take_line(&mut self, line: &[u8]) {
        let body = body_of(self.report.tally.lines, line);
        self.entry_line(body);
    }
}
