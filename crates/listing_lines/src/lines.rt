#![tactic(auto, using(byte_texts::proofs::TextLaws::written_more), unfolding(byte_texts::specs::Ascii::ascii, crate::specs::Lines::place_text, crate::specs::Lines::offset_text, crate::specs::Lines::line_text))]

ghost use Rattle.std.specs.Prelude.{◌+◌, ◌^◌, ◌<◌, length};
ghost use Rattle.byte_texts.specs.Growth.{Appended};
ghost use Rattle.listing_lines.specs.Lines.{place_text};
ghost use Rattle.listing_lines.specs.Listings.{offset_of, line_of, listed};

use byte_texts::Text;

// On a sheet each line starts with its place and how many lines there are. No `Option` of the total: `place_text` takes the two as arguments, and the contract of `append_place` names both.
#[derive(Clone, Copy)]
pub struct Places {
    pub sheet: bool,
    pub total: usize,
}

// The names of two files: the one has the offsets of the lines, the other lacks them.
#[derive(Clone, Copy)]
pub struct Missing<'a> {
    pub has: &'a [u8],
    pub lacks: &'a [u8],
}

// Which lines are written: of offsets that only one of two files has, or of a list.
#[derive(Clone, Copy)]
pub struct Listing<'a> {
    pub places: Places,
    pub missing: Option<Missing<'a>>,
}

impl Places {
    // What a line starts with.
    pub fn append_place(self, out: &mut Text, place: usize)
        ensures { Appended out.old out.new (place_text self.sheet self.total place) }
    {
        if self.sheet {
            out.append_decimal(place as u64);
            out.append(b"/");
            out.append_decimal(self.total as u64);
            out.append(b" ");
        } else {
            out.append(b"");
        }
    }
}

impl<'a> Listing<'a> {
    fn append_offset(self, out: &mut Text, offset: u64)
        ensures { Appended out.old out.new (offset_of self.entry offset) }
    {
        match self.missing {
            Some(files) => {
                out.append(b"offset ");
                out.append_decimal(offset);
                out.append(b": in ");
                out.append(files.has);
                out.append(b", not in ");
                out.append(files.lacks);
            }
            None => out.append_decimal(offset),
        }
    }

    fn append_line(self, out: &mut Text, place: usize, offset: u64)
        ensures { Appended out.old out.new (line_of self.entry place offset) }
    {
        self.places.append_place(out, place);
        self.append_offset(out, offset);
        out.append(b"\n");
    }

    // The offsets one a line, from a place on. Nothing is written where a place would be 2 ^ 64. Lines of pairs (pair_listings) have a loop of their own: one over a closure would take a third definition of lines, and a law from it to `lines_text` and to `pair_lines_text`.
    pub fn append_lines(self, out: &mut Text, offsets: &[u64], place: usize)
        ensures { place + length offsets.now < 2 ^ 64 → Appended out.old out.new (listed self.entry place offsets.now) }
    {
        if place.checked_add(offsets.len()).is_none() {
            return;
        }
        out.append(b"");
        for (k, offset) in offsets.iter().enumerate() {
            self.append_line(out, place + k, *offset);
        }
    }
}
