ghost use Rattle.std.specs.Prelude.{OnOk, List, ℕ};
ghost use Rattle.std.specs.Io.KnownBytes.{Appends};
ghost use Rattle.listing_lines.specs.declared.pages.Page.{Page as PageOf};
ghost use Rattle.tool_files.specs.Pieces.{Leaves};

use crate::messages::{Trouble, incomplete, not_listed};
use listing_lines::{Page, Progress, Written};
use std::io;
use std::io::{Error, ErrorKind, Write};

// Writes all of the bytes: a short write goes on with the rest, and one that a signal broke off is made again, up to 1,000 times. By hand: how often std's
// `write_all` makes it again is another number for each stream, and 2^64 for a file.
pub fn write_whole<W: Write>(out: &mut W, bytes: &[u8]) -> io::Result<()>
    ensures { OnOk result (Appends (W.contents out.old) (W.contents out.new) bytes.now) }
{
    let mut done: usize = 0;
    let mut signals: usize = 1000;
    while done < bytes.len() {
        match out.write(&bytes[done..]) {
            Ok(0) => return Err(Error::from(ErrorKind::WriteZero)),
            Ok(count) => done += count,
            Err(error) => {
                if signals == 0 || error.kind() != ErrorKind::Interrupted {
                    return Err(error);
                }
                signals -= 1;
            }
        }
    }
    Ok(())
}

// Writes all of the bytes to the standard output, and tells where that fails.
pub fn write_told<W: Write, E: Write>(out: &mut W, bytes: &[u8], err: &mut E) -> Result<(), Trouble>
    ensures { OnOk result (Appends (W.contents out.old) (W.contents out.new) bytes.now) }
{
    write_whole(out, bytes).map_err(|error| incomplete(err, &error))
}

// Writes the pieces that `next_piece` makes of one page after the other. The limit is never reached: a proved loop has to end.
pub fn write_pieces<S: Progress + Copy, R: Copy, N, W: Write, E: Write>(
    first: Page<S, R>,
    next_piece: N,
    out: &mut W,
    err: &mut E,
) -> Result<(), Trouble>
where
    N: Fn(Page<S, R>, &mut [u8]) -> Option<Written<S, R>>,
    requires { N.IsAlwaysCallable next_piece }
    ensures { (rest : PageOf S R → List ℕ) → Leaves N.Fn next_piece S.over rest → OnOk result (Appends (W.contents out.old) (W.contents out.new) (rest first)) }
{
    let mut buffer = [0u8; 65536];
    let mut page = first;
    for _ in 0..1000000 {
        let Some(piece) = next_piece(page, &mut buffer) else {
            break;
        };
        write_told(out, &buffer[..piece.length.min(buffer.len())], err)?;
        if piece.page.stage.is_over() {
            return Ok(());
        }
        page = piece.page;
    }
    Err(not_listed(err))
}
