ghost use Rattle.std.specs.Prelude.{◌≡◌, OnOk, cond, []};
ghost use Rattle.std.specs.Io.KnownBytes.{Appends};
ghost use Rattle.byte_texts.specs.Texts.{shown_name};
ghost use Rattle.listing_lines.specs.Offsets.{offsets_of};
ghost use Rattle.listings.specs.Pages.{job_text};

use crate::tool::{Status, Tool};
use byte_texts::ShownName;
use listing_pieces::{first_page, next_piece};
use listings::Job;
use std::io::{Input, Write};
use std::rt::Files;
use tool_files::Fragment::{Name, Text};
use tool_files::{Trouble, write_pieces};
use whole_walks::Walk;

// The offsets of a file, under its name.
#[derive(Clone, Copy)]
pub(crate) struct FileOffsets<'a> {
    pub name: &'a [u8],
    pub words: &'a [u64],
}

impl<R: Files + Input, W: Write, E: Write> Tool<'_, R, W, E> {
    // Writes what the job has to say of two files, and nothing at all where `--quiet` is asked for.
    pub(crate) fn write_job(
        &mut self,
        job: Job,
        file: FileOffsets,
        other: FileOffsets,
    ) -> Result<(), Trouble>
        ensures options { self.new.options ≡ self.old.options }
        ensures arguments { self.new.arguments ≡ self.old.arguments }
        ensures written { OnOk result (Appends (W.contents self.old.out.now) (W.contents self.new.out.now) (cond self.old.options.quiet [] (job_text job (shown_name file.entry.name.now) (shown_name other.entry.name.now) (offsets_of file.entry.words.now) (offsets_of other.entry.words.now)))) }
    {
        if self.options.quiet {
            return Ok(());
        }
        let shown = ShownName::new(file.name);
        let other_shown = ShownName::new(other.name);
        let name = shown.bytes();
        let other_name = other_shown.bytes();
        write_pieces(
            first_page(job),
            |page, buffer| next_piece(job, file.words, other.words, name, other_name, page, buffer),
            self.out,
            self.err,
        )
    }

    // Writes the list of a walk over the offsets of two files.
    pub(crate) fn write_walk(
        &mut self,
        walk: Walk,
        file: FileOffsets,
        other: FileOffsets,
    ) -> Result<Status, Trouble> {
        let job = Job {
            walk,
            compare: false,
            sheet: self.options.sheet,
            count: self.options.count,
            several: false,
        };
        self.write_job(job, file, other)?;
        Ok(Status::Complete)
    }

    // The offsets of one file.
    pub(crate) fn list(&mut self) -> Result<Status, Trouble> {
        let (Some(name), None) = (self.operand(1), self.operand(2)) else {
            return Err(self.fail(&[
                Text(b"list takes one file; see layout help "),
                Name(b"list"),
            ]));
        };
        let mut words: [u64; 1024] = [0; 1024];
        let mut table: [u64; 65536] = [0; 65536];
        self.load(name, &mut words, &mut table)?;
        let file = FileOffsets {
            name,
            words: &words,
        };
        self.write_walk(Walk::Ones, file, file)
    }

    // The list of a walk over the offsets of two files.
    pub(crate) fn combine(&mut self, command: &[u8], walk: Walk) -> Result<Status, Trouble> {
        let (Some(name), Some(other_name), None) = (
            self.operand(1),
            self.operand(2),
            self.operand(3),
        ) else {
            return Err(self.fail(&[Name(command), Text(b" takes two files")]));
        };
        let mut words: [u64; 1024] = [0; 1024];
        let mut other_words: [u64; 1024] = [0; 1024];
        let mut table: [u64; 65536] = [0; 65536];
        self.load(name, &mut words, &mut table)?;
        self.load(other_name, &mut other_words, &mut table)?;
        let file = FileOffsets {
            name,
            words: &words,
        };
        let other = FileOffsets {
            name: other_name,
            words: &other_words,
        };
        self.write_walk(walk, file, other)
    }
}
