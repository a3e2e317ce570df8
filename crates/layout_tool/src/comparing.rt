use crate::arguments::Words;
use crate::listing::FileOffsets;
use crate::tool::{Status, Tool};
use byte_texts::Text;
use listing_pieces::same_offsets;
use listings::Job;
use std::io::{Input, Write};
use std::rt::Files;
use tool_files::{Fragment, Trouble, write_told};
use verdict_lines::Tables;
use whole_walks::Walk;

// How the comparison with a table came out.
#[derive(Clone, Copy, Debug, PartialEq, Eq)]
enum Outcome {
    Same,
    Different,
    NotCompared,
}

fn count(tables: &mut Tables, outcome: Outcome) {
    let number = match outcome {
        Outcome::Same => &mut tables.same,
        Outcome::Different => &mut tables.different,
        Outcome::NotCompared => &mut tables.trouble,
    };
    *number = number.wrapping_add(1);
}

impl<R: Files + Input, W: Write, E: Write> Tool<'_, R, W, E> {
    // Trouble where the standard output failed.
    fn compare_table(
        &mut self,
        job: Job,
        firmware: FileOffsets,
        name: &[u8],
        words: &mut [u64],
        table: &mut [u64],
    ) -> Result<Outcome, Trouble> {
        if self.load(name, words, table).is_err() {
            return Ok(Outcome::NotCompared);
        }
        let other = FileOffsets { name, words };
        self.write_job(job, firmware, other)?;
        if same_offsets(firmware.words, other.words) {
            return Ok(Outcome::Same);
        }
        Ok(Outcome::Different)
    }

    // The tables are the words from number 2 on that are no options.
    fn compare_tables(
        &mut self,
        job: Job,
        firmware: FileOffsets,
        table: &mut [u64],
    ) -> Result<Tables, Trouble> {
        let mut words: [u64; 1024] = [0; 1024];
        let mut tables = Tables::default();
        let operands = Words::new(self.arguments).filter_map(|word| word.operand());
        for name in operands.skip(2) {
            let outcome = self.compare_table(job, firmware, name, &mut words, table)?;
            count(&mut tables, outcome);
        }
        Ok(tables)
    }

    // The verdict over several tables.
    fn write_tables(&mut self, tables: Tables) -> Result<(), Trouble> {
        let mut line = [0u8; 256];
        let mut text = Text::new(&mut line);
        tables.append(&mut text);
        write_told(self.out, text.written(), self.err)
    }

    // Whether each table names the offsets of the firmware.
    pub(crate) fn compare(&mut self) -> Result<Status, Trouble> {
        let (Some(name), Some(_)) = (self.operand(1), self.operand(2)) else {
            return Err(self.fail(&[Fragment::Text(
                b"compare takes a firmware layout and one table or more",
            )]));
        };
        let several = self.operand(3).is_some();
        let mut words: [u64; 1024] = [0; 1024];
        let mut table: [u64; 65536] = [0; 65536];
        self.load(name, &mut words, &mut table)?;
        let firmware = FileOffsets {
            name,
            words: &words,
        };
        let job = Job {
            walk: Walk::Difference,
            compare: true,
            sheet: self.options.sheet,
            count: self.options.count,
            several,
        };
        let tables = self.compare_tables(job, firmware, &mut table)?;
        if several && !self.options.quiet {
            self.write_tables(tables)?;
        }
        if tables.trouble != 0 {
            return Err(Trouble);
        }
        if tables.different != 0 {
            return Ok(Status::Different);
        }
        Ok(Status::Complete)
    }
}
