#![tactic(auto, using(byte_texts::proofs::TextLaws::written_more), unfolding(byte_texts::specs::Ascii::ascii, crate::specs::Tables::partner, crate::specs::Lines::pair_text, crate::specs::Lines::pairs_complete_text))]

ghost use Rattle.std.specs.Prelude.{◌≡◌, ◌+◌, ◌^◌, ◌<◌, length};
ghost use Rattle.byte_texts.specs.Growth.{Appended};
ghost use Rattle.pair_listings.specs.Tables.{entry_of, partner as partner_of};
ghost use Rattle.pair_listings.specs.Lines.{pair_text, pair_lines_text, pairs_complete_text, unpaired_text};

use blocks::block;
use byte_texts::Text;
use listing_lines::Places;

// The offset that an offset is paired with.
fn partner(table: &[u64], offset: u64) -> u64
    ensures { result ≡ partner_of (entry_of table.now) offset }
{
    block(table, offset as usize) % 65536
}

fn append_pair(out: &mut Text, places: Places, place: usize, offset: u64, other: u64)
    ensures { Appended out.old out.new (pair_text places.sheet places.total place offset other) }
{
    places.append_place(out, place);
    out.append_decimal(offset);
    out.append(b" ");
    out.append_decimal(other);
    out.append(b"\n");
}

// The offsets and their partners, a pair a line, from a place on. Nothing is written where a place would be 2 ^ 64. As `append_lines` of listing_lines: one loop for both would take a third definition of lines and two laws.
pub(crate) fn append_pair_lines(
    out: &mut Text,
    offsets: &[u64],
    table: &[u64],
    places: Places,
    place: usize,
)
    ensures { place + length offsets.now < 2 ^ 64 → Appended out.old out.new (pair_lines_text places.sheet places.total place (entry_of table.now) offsets.now) }
{
    if place.checked_add(offsets.len()).is_none() {
        return;
    }
    out.append(b"");
    for (k, offset) in offsets.iter().enumerate() {
        append_pair(out, places, place + k, *offset, partner(table, *offset));
    }
}

// The last line of a list of pairs. That of offsets (verdict_lines) has another word: a function of both words would take them as `offset_lines::Items` has them, and that is of the reader, which neither crate names.
pub(crate) fn append_pairs_complete(out: &mut Text, n: u64)
    ensures { Appended out.old out.new (pairs_complete_text n) }
{
    out.append(b"# complete: ");
    out.append_decimal(n);
    if n == 1 {
        out.append(b" pair\n");
    } else {
        out.append(b" pairs\n");
    }
}

// An offset of the old file that no line of the pairs names: the names of both files as they are shown, and the line that names the offset. `text_lines::Place` writes such a start too; this crate reads no text, and names text_lines for nothing else.
pub fn append_unpaired(out: &mut Text, old: &[u8], line: u64, offset: usize, pairs: &[u8])
    ensures { Appended out.old out.new (unpaired_text old.now line offset pairs.now) }
{
    out.append(b"ERROR: ");
    out.append(old);
    out.append(b", line ");
    out.append_decimal(line);
    out.append(b": offset ");
    out.append_decimal(offset as u64);
    out.append(b" has no pair in ");
    out.append(pairs);
    out.append(b"\n");
}
