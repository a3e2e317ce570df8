use crate::tool::{Status, run};
use byte_texts::Text;
use std::env::{Env, FillError};
use std::fs::OpenOptions;
use std::io;
use std::io::{Error, ErrorKind, Input, Write};
use std::rt::Files;
use tool_files::{EBADF, Fragment, fail, tell, write_whole};

// The words of the command line, each with a zero byte behind it.
fn gather<'a, R: Env>(rt: &R, arguments: &'a mut [u8]) -> Option<&'a [u8]> {
    let mut text = Text::new(arguments);
    // Word by word: `std::env::args` asks for an allocator.
    for k in 1..usize::MAX {
        let mut word = [0u8; 4096];
        match rt.arg(k, &mut word) {
            Ok(length) => {
                text.append(&word[..length]);
                text.append(b"\0");
            }
            Err(FillError::TooLong) => return None,
            Err(FillError::NotPresent) => break,
        }
    }
    let Text { out, end } = text;
    if end < out.len() {
        Some(&out[..end])
    } else {
        None
    }
}

fn run_arguments<R: Files + Input + Env, W: Write, E: Write>(
    rt: &R,
    out: &mut W,
    err: &mut E,
) -> Status {
    let mut arguments = [0u8; 65536];
    let Some(words) = gather(rt, &mut arguments) else {
        return Status::from(fail(
            err,
            &[Fragment::Text(
                b"the command line has more than 65535 bytes, or a word of more than 4096",
            )],
        ));
    };
    run(rt, words, out, err)
}

// Descriptor 3, which std can only open again, by its name: where it is closed there is no such file. A file that it stands for goes on at its end.
fn verdict_file<R: Files>(rt: &R) -> io::Result<R::File> {
    let opened = OpenOptions::new().append(true).open(rt, "/dev/fd/3");
    opened.map_err(|error| {
        if error.kind() == ErrorKind::NotFound {
            Error::from_raw_os_error(EBADF)
        } else {
            error
        }
    })
}

fn give_verdict<R: Files>(rt: &R, status: Status) -> io::Result<()> {
    let mut file = verdict_file(rt)?;
    let mut line = [0u8; 2];
    let mut text = Text::new(&mut line);
    text.append_decimal(status.number());
    text.append(b"\n");
    // In one write: of two, another run into the same file could come between them.
    write_whole(&mut file, text.written())
}

// The tool on the program's own arguments. The last act is the verdict, one line on descriptor 3: the status of `run`. With no verdict the run is trouble.
pub fn run_program<R: Files + Input + Env, W: Write, E: Write>(rt: &R, out: &mut W, err: &mut E) {
    let status = run_arguments(rt, out, err);
    if let Err(error) = give_verdict(rt, status) {
        let _told = tell(
            err,
            b"layout: the verdict cannot be written to descriptor 3: ",
            &[Fragment::Reason(&error)],
        );
    }
}
