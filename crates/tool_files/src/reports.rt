ghost use Rattle.std.specs.Prelude.{◌≡◌, OnOk};

use crate::messages::Fragment::{Name, Number, Reason, Text};
use crate::messages::{Trouble, fail, tell, write_report};
use crate::reads::Unread;
use std::io::Write;
use text_lines::Tally;

// The name and the error stream are two parameters of each of these: both go on to the calls of `messages`, for which a struct would be taken apart.

// Why a file was not read to its end.
pub(crate) fn tell_unread<E: Write>(name: &[u8], err: &mut E, unread: Unread) -> Trouble {
    match unread {
        Unread::TooLong => fail(
            err,
            &[Name(name), Text(b": it has more than 16777216 bytes")],
        ),
        Unread::Failed(error) => fail(
            err,
            &[Name(name), Text(b" cannot be read: "), Reason(&error)],
        ),
    }
}

// Writes the report, whose buffer has room for all where it does not end with it.
pub(crate) fn tell_report<E: Write>(
    name: &[u8],
    err: &mut E,
    report: byte_texts::Text,
) -> Result<(), Trouble> {
    if report.end == report.out.len() {
        return Err(fail(err, &[Name(name), Text(b": too much is to be said of it")]));
    }
    write_report(err, report.written())
}

// Of which repeats the report has nothing.
pub(crate) fn tell_repeats<E: Write>(
    name: &[u8],
    err: &mut E,
    repeats: usize,
) -> Result<(), Trouble> {
    if repeats > 20 {
        return tell(
            err,
            b"warning: ",
            &[
                Name(name),
                Text(b": "),
                Number((repeats - 20) as u64),
                Text(b" more offsets are named again"),
            ],
        );
    }
    Ok(())
}

// Of which bad lines the report has nothing. Trouble where a line is bad.
fn tell_bads<E: Write>(name: &[u8], err: &mut E, bads: usize) -> Result<(), Trouble>
    ensures { OnOk result (bads ≡ 0) }
{
    if bads > 20 {
        return Err(fail(
            err,
            &[
                Name(name),
                Text(b": "),
                Number((bads - 20) as u64),
                Text(b" more lines are bad"),
            ],
        ));
    }
    if bads == 0 { Ok(()) } else { Err(Trouble) }
}

// What is said of the lines of a file; `nothing` where they name nothing. Trouble where the file may not be used.
pub(crate) fn tell_tally<E: Write>(
    name: &[u8],
    err: &mut E,
    tally: Tally,
    allow_empty: bool,
    nothing: &[u8],
) -> Result<(), Trouble>
    ensures { OnOk result (tally.bads ≡ 0) }
{
    tell_bads(name, err, tally.bads)?;
    if tally.named == 0 && !allow_empty {
        return Err(fail(err, &[Name(name), Text(nothing)]));
    }
    Ok(())
}
