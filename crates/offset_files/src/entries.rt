ghost use Rattle.std.specs.Prelude.{◌≡◌, false, length, ◌<◌};
ghost use Rattle.text_lines.specs.Messages.{reason_text};
ghost use Rattle.text_lines.specs.Readers.{Makes};
ghost use Rattle.offset_files.specs.Files.{File, no_lines, blank_line, bad_line, new_offset, second_naming, offset_line, said_line};
ghost use Rattle.offset_files.specs.Holds.{kept, HoldsFile};

use crate::messages::append_repeat;
use crate::reader::OffsetReader;
use edits::insert;
use sets::FixedBitSet;
use text_lines::{Reason, Tally, more};

impl<'a, 'n, 'b> OffsetReader<'a, 'n, 'b> {
    // Nothing is read. The words, the table and the report are cleared.
    pub fn start(&mut self)
        ensures same { kept self.new ≡ kept self.old }
        ensures none { length self.old.words.now ≡ 1024 → length self.old.table.now ≡ 65536 → HoldsFile no_lines self.new }
    {
        self.words.fill(0);
        self.table.fill(0);
        self.report.tally = Tally::default();
        self.report.text.end = 0;
        self.repeats = 0;
    }

    // A line with nothing to say.
    pub fn blank_line(&mut self)
        ensures same { (self.new.words ≡ self.old.words) × (self.new.table ≡ self.old.table) × (self.new.report.now.text ≡ self.old.report.now.text) }
        ensures made { Makes kept HoldsFile blank_line self.old self.new }
    {
        self.report.blank_line();
    }

    // A line that may not stand there.
    pub fn bad_line(&mut self, body: &[u8], reason: Reason)
        ensures same { (self.new.words ≡ self.old.words) × (self.new.table ≡ self.old.table) }
        ensures made { Makes kept HoldsFile (bad_line self.old.report.now.name.now body.now (reason_text reason.entry)) self.old self.new }
    {
        self.report.bad_line(body, reason);
    }

    // The last line of a list.
    pub fn said_line(&mut self, body: &[u8], says: usize)
        ensures same { (self.new.words ≡ self.old.words) × (self.new.table ≡ self.old.table) }
        ensures made { Makes kept HoldsFile (said_line self.old.report.now.name.now body.now says) self.old self.new }
    {
        self.report.said_line(body, says, b" offsets and names ");
    }

    // An offset that no earlier line names: it becomes a member, and the table has its line.
    #[tactic(auto, unfolding(text_lines::specs::Texts::more))]
    fn new_offset(&mut self, offset: u16)
        ensures same { kept self.new ≡ kept self.old }
        ensures held { (f : File) → f.first offset ≡ 0 → HoldsFile f self.old → HoldsFile (new_offset offset f) self.new }
    {
        let offset = offset as usize;
        if self.table.len() <= offset {
            return;
        }
        let line = more(self.report.tally.lines);
        self.table[offset] = line as u64 * 2 + self.table[offset] % 2;
        let _accepted = insert(FixedBitSet::new(65536), self.words, offset);
        self.report.tally.lines = line;
        self.report.tally.named = more(self.report.tally.named);
    }

    // An offset that one earlier line names: the table has that it is named again.
    fn second_naming(&mut self, offset: u16)
        ensures same { kept self.new ≡ kept self.old }
        ensures held { (f : File) → f.again offset ≡ false → HoldsFile f self.old → HoldsFile (second_naming self.old.report.now.name.now offset f) self.new }
    {
        let offset = offset as usize;
        if self.table.len() <= offset {
            return;
        }
        let first = self.table[offset] / 2;
        self.table[offset] = first * 2 + 1;
        self.report.tally.lines = more(self.report.tally.lines);
        let repeats = self.repeats;
        self.repeats = more(repeats);
        if repeats < 20 {
            append_repeat(self.report, offset, first);
        }
    }

    // An offset: none may stand behind the last line of a list. Any may be handed in, so that the bound is in this clause and not in a narrower type.
    pub fn offset_line(&mut self, body: &[u8], offset: usize)
        ensures same { kept self.new ≡ kept self.old }
        ensures held { (f : File) → offset < 65536 → HoldsFile f self.old → HoldsFile (offset_line self.old.report.now.name.now body.now offset f) self.new }
    {
        if self.report.tally.said {
            let reason = Reason::Words(b"an offset behind the last line of a list");
            return self.bad_line(body, reason);
        }
        if self.table.len() <= offset || 65536 <= offset {
            return;
        }
        let entry = self.table[offset];
        if entry < 2 {
            return self.new_offset(offset as u16);
        }
        if entry % 2 == 1 {
            return self.blank_line();
        }
        self.second_naming(offset as u16);
    }
}
