ghost use Rattle.std.specs.Prelude.{◌≡◌, cond, ℕ, eqb, length, get_or, set};
ghost use Rattle.text_lines.specs.Messages.{reason_text};
ghost use Rattle.text_lines.specs.Readers.{Makes};
ghost use Rattle.pair_files.specs.Files.{no_pairs, blank_line, bad_line, said_line, bad, named, accepted, pair_line};
ghost use Rattle.pair_files.specs.Holds.{kept, HoldsPairs};
ghost use Rattle.pair_files.specs.Messages.{faults_text};

use crate::naming::Naming;
use crate::reader::PairReader;
use blocks::block;
use pair_lines::Pair;
use text_lines::{Reason, Tally, more};

// An offset's word, where it has none.
fn name_offset(table: &mut [u64], offset: usize, word: u64)
    ensures { table.new ≡ cond (eqb (get_or table.old offset 0) 0) (set table.old offset word) table.old }
{
    if block(table, offset) != 0 {
        return;
    }
    if offset < table.len() {
        table[offset] = word;
    }
}

impl<'a, 'n, 'b> PairReader<'a, 'n, 'b> {
    // Nothing is read. The tables and the report are cleared.
    pub fn start(&mut self)
        ensures same { kept self.new ≡ kept self.old }
        ensures none { length self.old.to.now ≡ 65536 → length self.old.from.now ≡ 65536 → HoldsPairs no_pairs self.new }
    {
        self.to.fill(0);
        self.from.fill(0);
        self.report.tally = Tally::default();
        self.report.text.end = 0;
    }

    // A line with nothing to say.
    pub(crate) fn blank_line(&mut self)
        ensures { Makes kept HoldsPairs blank_line self.old self.new }
    {
        self.report.blank_line();
    }

    // A line that may not stand there.
    pub(crate) fn bad_line(&mut self, body: &[u8], reason: Reason)
        ensures { Makes kept HoldsPairs (bad_line self.old.report.now.name.now body.now (reason_text reason.entry)) self.old self.new }
    {
        self.report.bad_line(body, reason);
    }

    // The last line of a list.
    pub(crate) fn said_line(&mut self, body: &[u8], says: usize)
        ensures { Makes kept HoldsPairs (said_line self.old.report.now.name.now body.now says) self.old self.new }
    {
        self.report.said_line(body, says, b" pairs and names ");
    }

    // A line that names a pair, each of its offsets where no earlier line names it.
    fn name_pair(&mut self, pair: Pair)
        ensures { Makes kept HoldsPairs (named pair.old pair.new) self.old self.new }
    {
        let lines = more(self.report.tally.lines);
        let line = lines as u64 * 65536;
        name_offset(self.to, pair.old as usize, line + pair.new as u64);
        name_offset(self.from, pair.new as usize, line + pair.old as u64);
        self.report.tally.lines = lines;
    }

    // The two are a pair.
    fn accept_pair(&mut self)
        ensures { (old new : ℕ) → Makes kept HoldsPairs (accepted old new) self.old self.new }
    {
        self.report.tally.named = more(self.report.tally.named);
    }

    // What refuses a pair is said.
    fn refuse_pair(&mut self, naming: Naming)
        ensures { Makes kept HoldsPairs (λ f. bad (faults_text self.old.report.now.name.now f.lines self.old.size naming.pair.old naming.pair.new naming.was naming.came) f) self.old self.new }
    {
        let bads = self.report.tally.bads;
        self.report.tally.bads = more(bads);
        if bads < 20 {
            naming.append_faults(self.report, self.size);
        }
    }

    // Two offsets: none may stand behind the last line of a list.
    pub(crate) fn pair_line(&mut self, body: &[u8], pair: Pair)
        ensures { Makes kept HoldsPairs (pair_line self.old.report.now.name.now body.now self.old.size pair.old pair.new) self.old self.new }
    {
        if self.report.tally.said {
            let reason = Reason::Words(b"a pair behind the last line of a list");
            return self.bad_line(body, reason);
        }
        let (old, new) = (pair.old as usize, pair.new as usize);
        if self.to.len() <= old || self.from.len() <= new {
            return;
        }
        let naming = Naming {
            pair,
            was: self.to[old],
            came: self.from[new],
        };
        let passes = naming.passes(self.size);
        self.name_pair(pair);
        if passes {
            self.accept_pair();
        } else {
            self.refuse_pair(naming);
        }
    }
}
