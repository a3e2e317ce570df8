ghost use Rattle.std.specs.Prelude.{◌≡◌, IfOk, OnOk, length};
ghost use Rattle.byte_texts.specs.Texts.{shown_name};
ghost use Rattle.offset_files.specs.Files.{no_lines, take_line};
ghost use Rattle.offset_files.specs.Holds.{kept, HoldsFile};
ghost use Rattle.tool_files.specs.Loading.{ReadWhole, Usable};

use crate::messages::Trouble;
use crate::opening::open_file;
use crate::reads::{Unread, read_text};
use crate::reports::{tell_repeats, tell_report, tell_tally, tell_unread};
use byte_texts::ShownName;
use offset_files::OffsetReader;
use std::io::{Input, Read, Write};
use std::rt::Files;
use text_lines::FileReport;

// Reads a file of offsets. One call with the reader, which says of each of its buffers that it stays: else what they hold then is unknown to the caller. Hence one for each reader.
fn read_offsets<F: Read>(file: &mut F, reader: &mut OffsetReader) -> Result<(), Unread>
    ensures same_words { reader.new.words.ghost_name ≡ reader.old.words.ghost_name }
    ensures same_table { reader.new.table.ghost_name ≡ reader.old.table.ghost_name }
    ensures same { kept reader.new ≡ kept reader.old }
    ensures whole { length reader.old.words.now ≡ 1024 → length reader.old.table.now ≡ 65536
        → IfOk result (λ _. ReadWhole (take_line reader.old.report.now.name.now) no_lines (F.remaining file.old) (λ f. HoldsFile f reader.new)) }
{
    reader.start();
    read_text(file, reader)
}

// As `load_open_pairs`, with another reader, its buffers and what is known of them; the reads and the reports are shared.
fn load_open<F: Read, E: Write>(
    file: &mut F,
    name: &[u8],
    allow_empty: bool,
    err: &mut E,
    words: &mut [u64],
    table: &mut [u64],
) -> Result<(), Trouble>
    ensures { OnOk result (Usable (shown_name name.now) words.new table.new) }
{
    if words.len() != 1024 || table.len() != 65536 {
        return Err(Trouble);
    }
    let mut space = [0u8; 16384];
    let shown = ShownName::new(name);
    let mut report = FileReport::new(shown.bytes(), &mut space);
    let mut reader = OffsetReader {
        report: &mut report,
        repeats: 0,
        words,
        table,
    };
    if let Err(unread) = read_offsets(file, &mut reader) {
        return Err(tell_unread(name, err, unread));
    }
    let tally = reader.report.tally;
    let repeats = reader.repeats;
    tell_report(name, err, report.text)?;
    tell_repeats(name, err, repeats)?;
    let nothing = b": it names no offset; with --allow-empty it may";
    tell_tally(name, err, tally, allow_empty, nothing)
}

// The offsets of a file as the members of a set of 65,536 bits; `-` is the standard input.
pub fn load<R: Files + Input, E: Write>(
    rt: &R,
    name: &[u8],
    allow_empty: bool,
    err: &mut E,
    words: &mut [u64],
    table: &mut [u64],
) -> Result<(), Trouble>
    ensures { OnOk result (Usable (shown_name name.now) words.new table.new) }
{
    let mut file = open_file(rt, name, err)?;
    load_open(&mut file, name, allow_empty, err, words, table)
}
