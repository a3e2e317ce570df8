use crate::arguments::operand;
use crate::commands::{Command, UnknownCommand};
use crate::help::general_help;
use crate::options::{Options, has_length, options_of, repeats_input, unknown_option};
use std::fmt;
use std::io::{Input, Write};
use std::rt::Files;
use tool_files::Fragment::{Name, Text};
use tool_files::{Fragment, Trouble, fail, incomplete, load, write_told, write_whole};
use whole_walks::Walk;

// How a run came out; shown as the exit status: 0 the same or complete, 1 different, 2 trouble.
#[derive(Clone, Copy, Debug, PartialEq, Eq)]
pub enum Status {
    Complete,
    Different,
    Trouble,
}

impl Status {
    pub(crate) fn number(self) -> u64 {
        match self {
            Status::Complete => 0,
            Status::Different => 1,
            Status::Trouble => 2,
        }
    }
}

impl fmt::Display for Status {
    fn fmt<W: fmt::Write>(&self, f: &mut fmt::Formatter<W>) -> fmt::Result {
        write!(f, "{}", self.number())
    }
}

impl From<Trouble> for Status {
    fn from(_trouble: Trouble) -> Status {
        Status::Trouble
    }
}

// A run of the tool on a command line: each word with a zero byte behind it. Data goes to `out`, everything else to `err`.
#[derive(Drop)]
pub(crate) struct Tool<'a, R, W, E> {
    pub rt: &'a R,
    pub arguments: &'a [u8],
    pub options: Options,
    pub out: &'a mut W,
    pub err: &'a mut E,
}

impl<'a, R: Files + Input, W: Write, E: Write> Tool<'a, R, W, E> {
    // The word with number `wanted` among those that are no options: the command is number 0.
    pub(crate) fn operand(&self, wanted: usize) -> Option<&'a [u8]> {
        operand(self.arguments, wanted)
    }

    pub(crate) fn fail(&mut self, message: &[Fragment]) -> Trouble {
        fail(self.err, message)
    }

    // The offsets of a file, and the lines that name them.
    pub(crate) fn load(
        &mut self,
        name: &[u8],
        words: &mut [u64],
        table: &mut [u64],
    ) -> Result<(), Trouble> {
        load(
            self.rt,
            name,
            self.options.allow_empty,
            self.err,
            words,
            table,
        )
    }

    fn write(&mut self, text: &[u8]) -> Result<Status, Trouble> {
        write_told(self.out, text, self.err)?;
        Ok(Status::Complete)
    }

    fn fail_unknown(&mut self, UnknownCommand(name): UnknownCommand) -> Trouble {
        self.fail(&[
            Text(b"unknown command "),
            Name(name),
            Text(b"; layout help lists them"),
        ])
    }

    // The help of one command, or of all where none is named.
    fn help(&mut self, name: Option<&[u8]>) -> Result<Status, Trouble> {
        match name {
            None | Some(b"help") => self.write(general_help()),
            Some(name) => match Command::try_from(name) {
                Ok(command) => self.write(command.help()),
                Err(unknown) => Err(self.fail_unknown(unknown)),
            },
        }
    }

    // The help of all commands on the error stream, where no command is named.
    fn tell_help(&mut self) -> Trouble {
        match write_whole(self.err, general_help()) {
            Ok(()) => Trouble,
            Err(error) => incomplete(self.err, &error),
        }
    }

    fn run_command(&mut self, name: &[u8]) -> Result<Status, Trouble> {
        if repeats_input(self.arguments) {
            return Err(self.fail(&[
                Text(b"the standard input can be read only once: "),
                Name(b"-"),
                Text(b" stands twice"),
            ]));
        }
        let command = Command::try_from(name);
        if command == Ok(Command::Renumber) {
            return self.renumber();
        }
        if self.options.pairs || self.options.back || has_length(self.arguments) {
            return Err(self.fail(&[Text(b"--pairs, --back and --length are for renumber alone")]));
        }
        match command {
            Ok(Command::Compare) => self.compare(),
            Ok(Command::List) => self.list(),
            Ok(Command::Union) => self.combine(name, Walk::Union),
            Ok(Command::Intersection) => self.combine(name, Walk::Intersection),
            Ok(Command::Difference) => self.combine(name, Walk::Difference),
            Ok(Command::SymmetricDifference) => self.combine(name, Walk::SymmetricDifference),
            // Called twice: called once, its tables would be part of the frame of every command, and 2 MiB of stack too few.
            Ok(Command::Renumber) => self.renumber(),
            Err(unknown) => Err(self.fail_unknown(unknown)),
        }
    }

    fn run(&mut self) -> Result<Status, Trouble> {
        if let Some(option) = unknown_option(self.arguments) {
            return Err(self.fail(&[
                Text(b"unknown option "),
                Name(option),
                Text(b"; layout help lists them"),
            ]));
        }
        if self.options.version {
            return self.write(b"layout 0.3.0\n");
        }
        let name = self.operand(0);
        match name {
            Some(b"help") => self.help(self.operand(1)),
            _ if self.options.help => self.help(name),
            Some(name) => self.run_command(name),
            None => Err(self.tell_help()),
        }
    }
}

// Runs the tool on a command line: each word with a zero byte behind it. Data goes to `out`, everything else to `err`.
pub fn run<'a, R: Files + Input, W: Write, E: Write>(
    rt: &'a R,
    arguments: &'a [u8],
    out: &'a mut W,
    err: &'a mut E,
) -> Status {
    let mut tool = Tool {
        rt,
        arguments,
        options: options_of(arguments),
        out,
        err,
    };
    tool.run().unwrap_or_else(Status::from)
}
