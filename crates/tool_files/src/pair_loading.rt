ghost use Rattle.std.specs.Prelude.{◌≡◌, IfOk, OnOk, length};
ghost use Rattle.byte_texts.specs.Texts.{shown_name};
ghost use Rattle.pair_files.specs.Files.{no_pairs, take_pair};
ghost use Rattle.pair_files.specs.Holds.{kept, HoldsPairs};
ghost use Rattle.tool_files.specs.Loading.{ReadWhole, UsablePairs};

use crate::messages::Trouble;
use crate::opening::open_file;
use crate::reads::{Unread, read_text};
use crate::reports::{tell_report, tell_tally, tell_unread};
use byte_texts::ShownName;
use pair_files::PairReader;
use std::io::{Input, Read, Write};
use std::rt::Files;
use text_lines::FileReport;

// Reads a file of pairs. One call with the reader, which says of each of its buffers that it stays: else what they hold then is unknown to the caller. Hence one for each reader.
fn read_pairs<F: Read>(file: &mut F, reader: &mut PairReader) -> Result<(), Unread>
    ensures same_to { reader.new.to.ghost_name ≡ reader.old.to.ghost_name }
    ensures same_from { reader.new.from.ghost_name ≡ reader.old.from.ghost_name }
    ensures same { kept reader.new ≡ kept reader.old }
    ensures whole { length reader.old.to.now ≡ 65536 → length reader.old.from.now ≡ 65536
        → IfOk result (λ _. ReadWhole (take_pair reader.old.report.now.name.now reader.old.size) no_pairs (F.remaining file.old) (λ f. HoldsPairs f reader.new)) }
{
    reader.start();
    read_text(file, reader)
}

fn load_open_pairs<F: Read, E: Write>(
    file: &mut F,
    name: &[u8],
    size: usize,
    allow_empty: bool,
    err: &mut E,
    to: &mut [u64],
    from: &mut [u64],
) -> Result<(), Trouble>
    ensures { OnOk result (UsablePairs (shown_name name.now) size to.new from.new) }
{
    if to.len() != 65536 || from.len() != 65536 {
        return Err(Trouble);
    }
    let mut space = [0u8; 16384];
    let shown = ShownName::new(name);
    let mut report = FileReport::new(shown.bytes(), &mut space);
    let mut reader = PairReader {
        report: &mut report,
        size,
        to,
        from,
    };
    if let Err(unread) = read_pairs(file, &mut reader) {
        return Err(tell_unread(name, err, unread));
    }
    let tally = reader.report.tally;
    tell_report(name, err, report.text)?;
    let nothing = b": it names no pair; with --allow-empty it may";
    tell_tally(name, err, tally, allow_empty, nothing)
}

// The pairs of a file as a table of each side, for a new set of `size` bits; `-` is the standard input.
pub fn load_pairs<R: Files + Input, E: Write>(
    rt: &R,
    name: &[u8],
    size: usize,
    allow_empty: bool,
    err: &mut E,
    to: &mut [u64],
    from: &mut [u64],
) -> Result<(), Trouble>
    ensures { OnOk result (UsablePairs (shown_name name.now) size to.new from.new) }
{
    let mut file = open_file(rt, name, err)?;
    load_open_pairs(&mut file, name, size, allow_empty, err, to, from)
}
