ghost use Rattle.std.specs.Prelude.{OnOk};
ghost use Rattle.std.specs.Io.KnownBytes.{Appends};
ghost use Rattle.tool_files.specs.Telling.{Told};

use crate::streams::write_whole;
use byte_texts::Text;
use std::io;
use std::io::{ErrorKind, Write};

// What was asked for cannot be done: the error stream says why.
#[derive(Clone, Copy, Debug, PartialEq, Eq)]
pub struct Trouble;

// What a line on the error stream is made of: a text, a name as it is shown, a number in decimal, and why a call of the operating system failed.
#[derive(Clone, Copy)]
pub enum Fragment<'a> {
    Text(&'a [u8]),
    Name(&'a [u8]),
    Number(u64),
    Reason(&'a io::Error),
}

// Errors of Linux that have a text of their own and no `ErrorKind`: that of EACCES has EPERM too. By number, since std has no names for them and a crate may not use libc.
const EIO: i32 = 5;

// A descriptor that is closed.
pub const EBADF: i32 = 9;

const EACCES: i32 = 13;

const EMFILE: i32 = 24;

fn reason(error: &io::Error) -> &'static [u8] {
    match error.kind() {
        ErrorKind::NotFound => b"there is no such file",
        ErrorKind::IsADirectory => b"it is a folder",
        ErrorKind::NotADirectory => b"there is no such folder",
        ErrorKind::InvalidFilename => b"the name is too long",
        ErrorKind::StorageFull => b"no space is left",
        ErrorKind::BrokenPipe => b"nobody reads it",
        ErrorKind::WouldBlock => b"it would have to wait",
        ErrorKind::FileTooLarge => b"the file may not grow",
        _ => match error.raw_os_error() {
            Some(EACCES) => b"permission denied",
            Some(EBADF) => b"it is closed",
            Some(EIO) => b"the device failed",
            Some(EMFILE) => b"too many files are open",
            _ => b"the system refused it",
        },
    }
}

// Writes all of a text to the error stream.
pub fn write_report<E: Write>(err: &mut E, text: &[u8]) -> Result<(), Trouble>
    ensures { OnOk result (Appends (E.contents err.old) (E.contents err.new) text.now) }
{
    write_whole(err, text).map_err(|_| Trouble)
}

// Writes one line, of up to 255 bytes: how it starts, and the message.
pub fn tell<E: Write>(err: &mut E, start: &[u8], message: &[Fragment]) -> Result<(), Trouble>
    ensures { OnOk result (Told start.now message.now (E.contents err.old) (E.contents err.new)) }
{
    let mut line = [0u8; 256];
    let mut text = Text::new(&mut line);
    text.append(start);
    for fragment in message {
        match *fragment {
            Fragment::Text(bytes) => text.append(bytes),
            Fragment::Name(name) => text.append_name(name),
            Fragment::Number(number) => text.append_decimal(number),
            Fragment::Reason(error) => text.append(reason(error)),
        }
    }
    text.append(b"\n");
    write_report(err, text.written())
}

// Says why something cannot be done. No contract: `Trouble` has one value, and of a write that fails nothing is known.
pub fn fail<E: Write>(err: &mut E, message: &[Fragment]) -> Trouble {
    let _told = tell(err, b"ERROR: ", message);
    Trouble
}

// After a write that failed nothing more is written but this.
pub fn incomplete<E: Write>(err: &mut E, error: &io::Error) -> Trouble {
    let _told = tell(
        err,
        b"INCOMPLETE: not all was written to the standard output: ",
        &[Fragment::Reason(error)],
    );
    Trouble
}

// What is to be listed cannot be made.
pub fn not_listed<E: Write>(err: &mut E) -> Trouble {
    let _told = tell(err, b"INCOMPLETE: not all could be listed", &[]);
    Trouble
}
