ghost use Rattle.std.specs.Prelude.{◌≡◌, OnOk};
ghost use Rattle.listing_lines.specs.Offsets.{offsets_of};
ghost use Rattle.pair_listings.specs.Tables.{entry_of, unpaired_count};

use byte_texts::{ShownName, Text};
use pair_listings::{append_unpaired, count_unpaired, first_unpaired};
use std::io::Write;
use tool_files::{Fragment, Trouble, fail, write_report};

// Messages of the first 20 members that no pair names, in a lent buffer. `table` has the lines of the old file.
fn report_members<'a>(
    space: &'a mut [u8],
    words: &[u64],
    table: &[u64],
    to: &[u64],
    old: &[u8],
    pairs: &[u8],
) -> &'a [u8] {
    let mut report = Text::new(space);
    let mut from: usize = 0;
    for _ in 0..20 {
        let Some(offset) = first_unpaired(words, to, from) else {
            break;
        };
        let line = blocks::block(table, offset) / 2;
        append_unpaired(&mut report, old, line, offset, pairs);
        from = offset.saturating_add(1);
    }
    report.written()
}

// Whether every offset of the old file has a pair. Where not, it was said of which: of the first 20, and how many more.
pub fn all_paired<E: Write>(
    words: &[u64],
    table: &[u64],
    to: &[u64],
    old_name: &[u8],
    pairs_name: &[u8],
    err: &mut E,
) -> Result<(), Trouble>
    ensures { OnOk result (unpaired_count (entry_of to.now) (offsets_of words.now) ≡ 0) }
{
    let count = count_unpaired(words, to);
    if count == 0 {
        return Ok(());
    }
    let old = ShownName::new(old_name);
    let pairs = ShownName::new(pairs_name);
    let mut space = [0u8; 8192];
    let report = report_members(&mut space, words, table, to, old.bytes(), pairs.bytes());
    write_report(err, report)?;
    if count > 20 {
        return Err(fail(
            err,
            &[
                Fragment::Name(old_name),
                Fragment::Text(b": "),
                Fragment::Number((count - 20) as u64),
                Fragment::Text(b" more offsets have no pair"),
            ],
        ));
    }
    Err(Trouble)
}
