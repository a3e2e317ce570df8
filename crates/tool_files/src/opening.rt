use crate::messages::Fragment::{Name, Reason, Text};
use crate::messages::{Trouble, fail};
use std::io::{Input, Read, Write};
use std::rt::Files;
use std::{fs, io, str};

// What is read: the standard input, or a file that was opened.
#[derive(Drop)]
pub(crate) enum Source<I, F> {
    Input(I),
    File(F),
}

impl<I: Read, F: Read> Read for Source<I, F> {
    fn read(&mut self, buffer: &mut [u8]) -> io::Result<usize> {
        match self {
            Source::Input(input) => input.read(buffer),
            Source::File(file) => file.read(buffer),
        }
    }
}

// A file that is open; `-` is the standard input.
pub(crate) fn open_file<R: Files + Input, E: Write>(
    rt: &R,
    name: &[u8],
    err: &mut E,
) -> Result<Source<R::Reader, R::File>, Trouble> {
    if name == b"-".as_slice() {
        return Ok(Source::Input(rt.reader()));
    }
    let Ok(path) = str::from_utf8(name) else {
        return Err(fail(
            err,
            &[Name(name), Text(b" cannot be opened: the name is no UTF-8")],
        ));
    };
    match fs::open(rt, path) {
        Ok(file) => Ok(Source::File(file)),
        Err(error) => Err(fail(
            err,
            &[Name(name), Text(b" cannot be opened: "), Reason(&error)],
        )),
    }
}
