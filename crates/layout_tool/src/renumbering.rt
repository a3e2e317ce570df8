use crate::listing::FileOffsets;
use crate::tool::{Status, Tool};
use pair_listings::move_members;
use std::io::{Input, Write};
use std::rt::Files;
use tool_files::Fragment::{Name, Text};
use tool_files::{Trouble, load_pairs, not_listed};
use tool_pairs::{all_paired, write_back, write_pairs};
use whole_walks::Walk;

impl<R: Files + Input, W: Write, E: Write> Tool<'_, R, W, E> {
    // The list of the new offsets.
    fn write_moved(&mut self, file: FileOffsets, to: &[u64]) -> Result<Status, Trouble> {
        let mut moved: [u64; 1024] = [0; 1024];
        move_members(file.words, to, &mut moved).map_err(|_| not_listed(self.err))?;
        let list = FileOffsets {
            name: file.name,
            words: &moved,
        };
        self.write_walk(Walk::Ones, list, list)
    }

    // What is asked for: the new offsets, each old offset with its new one, or the pairs for the way back.
    fn write_renumbered(
        &mut self,
        file: FileOffsets,
        to: &[u64],
        from: &[u64],
    ) -> Result<Status, Trouble> {
        if self.options.quiet {
            return Ok(Status::Complete);
        }
        let job = pair_listings::Job {
            sheet: self.options.sheet,
            count: self.options.count,
        };
        if self.options.back {
            write_back(job, from, self.out, self.err)?;
            return Ok(Status::Complete);
        }
        if self.options.pairs {
            write_pairs(job, file.words, to, self.out, self.err)?;
            return Ok(Status::Complete);
        }
        self.write_moved(file, to)
    }

    // The offsets of one file renumbered by the pairs of another.
    pub(crate) fn renumber(&mut self) -> Result<Status, Trouble> {
        let (Some(pairs_name), Some(name), None) = (
            self.operand(1),
            self.operand(2),
            self.operand(3),
        ) else {
            return Err(self.fail(&[
                Text(b"renumber takes a file of pairs and a file of offsets; see layout help "),
                Name(b"renumber"),
            ]));
        };
        let Some(size) = self.options.length else {
            return Err(self.fail(&[Text(
                b"renumber takes --length N, the new length, a number from 0 to 65536",
            )]));
        };
        if self.options.pairs && self.options.back {
            return Err(self.fail(&[Text(b"renumber takes --pairs or --back, and not both")]));
        }
        let mut words: [u64; 1024] = [0; 1024];
        let mut table: [u64; 65536] = [0; 65536];
        let mut to: [u64; 65536] = [0; 65536];
        let mut from: [u64; 65536] = [0; 65536];
        load_pairs(
            self.rt,
            pairs_name,
            size,
            self.options.allow_empty,
            self.err,
            &mut to,
            &mut from,
        )?;
        self.load(name, &mut words, &mut table)?;
        all_paired(&words, &table, &to, name, pairs_name, self.err)?;
        let file = FileOffsets {
            name,
            words: &words,
        };
        self.write_renumbered(file, &to, &from)
    }
}
