ghost use Rattle.std.specs.Prelude.{OnOk};
ghost use Rattle.std.specs.Io.KnownBytes.{Appends};
ghost use Rattle.listing_lines.specs.Offsets.{offsets_of};
ghost use Rattle.pair_listings.specs.Tables.{entry_of, named_by};
ghost use Rattle.pair_listings.specs.Pages.{pairs_text};

use pair_listings::{Job, first_page, named_set, next_piece};
use std::io::Write;
use tool_files::{Trouble, not_listed, write_pieces};

// Writes the pair of each member of a set by a table.
pub fn write_pairs<W: Write, E: Write>(
    job: Job,
    words: &[u64],
    table: &[u64],
    out: &mut W,
    err: &mut E,
) -> Result<(), Trouble>
    ensures { OnOk result (Appends (W.contents out.old) (W.contents out.new) (pairs_text job (entry_of table.now) (offsets_of words.now))) }
{
    write_pieces(
        first_page(job),
        |page, buffer| next_piece(job, words, table, page, buffer),
        out,
        err,
    )
}

// The pairs file swapped: every pair by its new offset.
pub fn write_back<W: Write, E: Write>(
    job: Job,
    from: &[u64],
    out: &mut W,
    err: &mut E,
) -> Result<(), Trouble>
    ensures { OnOk result (Appends (W.contents out.old) (W.contents out.new) (pairs_text job (entry_of from.now) (named_by (entry_of from.now)))) }
{
    let mut named: [u64; 1024] = [0; 1024];
    named_set(from, &mut named).map_err(|_| not_listed(err))?;
    write_pairs(job, &named, from, out, err)
}
