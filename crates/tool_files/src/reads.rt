ghost use Rattle.std.specs.Prelude.{◌≡◌, ◌<◌, [], IfOk, IfSome, IsNone, length, take};
ghost use Rattle.std.specs.Io.KnownBytes.{Consumes, IsAtEnd};
ghost use Rattle.io.specs.Counts.{IsPrefixLen};
ghost use Rattle.tool_files.specs.Loading.{ReadWhole};

use std::io;
use std::io::{ErrorKind, Read};
use text_lines::{LineReader, OpenLine};

// Why a file was not read to its end.
#[derive(Clone, Copy)]
pub(crate) enum Unread {
    TooLong,
    Failed(io::Error),
}

// The reads of a file that are still to come: they give fewer than `left` bytes, and up to `signals` of them are broken off by a signal and made again.
#[derive(Clone, Copy)]
pub(crate) struct Reads {
    pub left: usize,
    signals: usize,
}

impl Reads {
    // The limits are 16 MiB and 1,000 signals: a proved loop has to end, and nothing says that a file or its signals do.
    pub(crate) fn new() -> Reads
        ensures { result.left ≡ 16777217 }
    {
        Reads {
            left: 16777217,
            signals: 1000,
        }
    }

    // How many bytes came; none at the end of the file.
    pub(crate) fn read<F: Read>(
        &mut self,
        file: &mut F,
        buffer: &mut [u8],
    ) -> Result<Option<usize>, Unread>
        ensures bytes { IfOk result (λ read. IfSome read (λ count. IsPrefixLen count buffer.new)) }
        ensures fewer { IfOk result (λ read. IfSome read (λ _. self.new.left < self.old.left)) }
        ensures given { IfOk result (λ read. IfSome read (λ count. Consumes (F.remaining file.old) (F.remaining file.new) (take count buffer.new))) }
        ensures end { IfOk result (λ read. IsNone read → 0 < length buffer.old → Consumes (F.remaining file.old) (F.remaining file.new) [] × IsAtEnd (F.remaining file.new)) }
    {
        // Until a read is not broken off: no index is counted, and `signals` bounds it. The label is its name in the proof.
        'again: loop {
            match file.read(buffer) {
                Ok(0) => return Ok(None),
                Ok(count) if count < self.left => {
                    self.left -= count;
                    return Ok(Some(count));
                }
                Ok(_) => return Err(Unread::TooLong),
                Err(error) => {
                    if self.signals == 0 || error.kind() != ErrorKind::Interrupted {
                        return Err(Unread::Failed(error));
                    }
                    self.signals -= 1;
                }
            }
        }
    }
}

// Reads a file to its end.
pub(crate) fn read_text<F: Read, R: LineReader>(file: &mut F, reader: &mut R) -> Result<(), Unread>
    ensures same { R.kept reader.new ≡ R.kept reader.old }
    ensures whole { (none : R.File) → R.HoldsFile none reader.old
        → IfOk result (λ _. ReadWhole (R.step (R.kept reader.old)) none (F.remaining file.old) (λ f. R.HoldsFile f reader.new)) }
{
    let mut buffer = [0u8; 65536];
    let mut line = OpenLine::new();
    let mut reads = Reads::new();
    while let Some(count) = reads.read(file, &mut buffer)? {
        reader.take(&mut line, &buffer[..count]);
    }
    reader.finish(&line);
    Ok(())
}
