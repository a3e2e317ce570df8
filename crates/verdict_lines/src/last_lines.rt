#![tactic(auto, using(byte_texts::proofs::TextLaws::written_more), unfolding(byte_texts::specs::Ascii::ascii, listing_lines::specs::Lines::offsets_text, listing_lines::specs::Lines::complete_text, listing_lines::specs::Lines::count_text, listing_lines::specs::Lines::same_text, listing_lines::specs::Lines::in_text, listing_lines::specs::Lines::table_text, listing_lines::specs::Lines::trouble_text))]

ghost use Rattle.std.specs.Prelude.{◌+◌, ◌^◌, ◌<◌};
ghost use Rattle.byte_texts.specs.Growth.{Appended};
ghost use Rattle.listing_lines.specs.Lines.{offsets_text, complete_text, count_text, same_text, in_text, table_text, trouble_text, tables_text};
ghost use Rattle.verdict_lines.specs.Verdicts.{different_of, result_of, verdict_of};

use byte_texts::Text;

// A number of offsets.
fn append_offsets(out: &mut Text, n: u64)
    ensures { Appended out.old out.new (offsets_text n) }
{
    out.append_decimal(n);
    if n == 1 {
        out.append(b" offset");
    } else {
        out.append(b" offsets");
    }
}

// The last line of a list. That of a list of pairs (pair_listings) has another word: a function of both words would take them as `offset_lines::Items` has them, and that is of the reader, which neither crate names.
pub fn append_complete(out: &mut Text, n: u64)
    ensures { Appended out.old out.new (complete_text n) }
{
    out.append(b"# complete: ");
    append_offsets(out, n);
    out.append(b"\n");
}

// The count alone.
pub fn append_count(out: &mut Text, n: u64)
    ensures { Appended out.old out.new (count_text n) }
{
    out.append_decimal(n);
    out.append(b"\n");
}

fn append_same(out: &mut Text, n: u64)
    ensures { Appended out.old out.new (same_text n) }
{
    out.append(b"same: ");
    append_offsets(out, n);
    out.append(b" in each\n");
}

// A number of offsets, and the file that they are in.
fn append_in(out: &mut Text, n: u64, words: &[u8], name: &[u8])
    ensures { Appended out.old out.new (in_text n words.now name.now) }
{
    out.append_decimal(n);
    out.append(words);
    out.append(name);
}

// The table's name, where there are several.
fn append_table(out: &mut Text, several: bool, other: &[u8])
    ensures { Appended out.old out.new (table_text several other.now) }
{
    if several {
        out.append(other);
        out.append(b": ");
    } else {
        out.append(b"");
    }
}

// How many offsets the file of the first name has, and that of the other; how many only the first has, and only the other.
#[derive(Clone, Copy)]
pub struct Sizes {
    pub name: u64,
    pub other: u64,
    pub extra: u64,
    pub lacking: u64,
}

// Two files, by their names as they are shown.
#[derive(Clone, Copy)]
pub struct Verdict<'a> {
    pub name: &'a [u8],
    pub other: &'a [u8],
    pub sizes: Sizes,
}

impl<'a> Verdict<'a> {
    fn append_different(self, out: &mut Text)
        ensures { Appended out.old out.new (different_of self.entry) }
    {
        out.append(b"DIFFERENT: ");
        append_in(out, self.sizes.name, b" in ", self.name);
        out.append(b", ");
        append_in(out, self.sizes.other, b" in ", self.other);
        out.append(b"; ");
        append_in(out, self.sizes.extra, b" only in ", self.name);
        out.append(b", ");
        append_in(out, self.sizes.lacking, b" only in ", self.other);
        out.append(b"\n");
    }

    #[tactic(auto, unfolding(listing_lines::specs::Lines::result_text))]
    fn append_result(self, out: &mut Text)
        ensures { Appended out.old out.new (result_of self.entry) }
    {
        if self.sizes.extra == 0 && self.sizes.lacking == 0 {
            append_same(out, self.sizes.name);
        } else {
            self.append_different(out);
        }
    }

    // The verdict on the two files, one of several tables or not.
    pub fn append(self, out: &mut Text, several: bool)
        ensures { Appended out.old out.new (verdict_of several self.entry) }
    {
        append_table(out, several, self.other);
        self.append_result(out);
    }
}

fn append_trouble(out: &mut Text, n: u64)
    ensures { Appended out.old out.new (trouble_text n) }
{
    if n == 0 {
        out.append(b"");
    } else {
        out.append(b", ");
        out.append_decimal(n);
        out.append(b" not compared");
    }
}

// How many tables are the same, different and not compared.
#[derive(Clone, Copy, Default)]
pub struct Tables {
    pub same: u64,
    pub different: u64,
    pub trouble: u64,
}

impl Tables {
    // The verdict over several tables. Nothing is written where there are 2 ^ 64 of them.
    pub fn append(self, out: &mut Text)
        ensures { self.same + self.different + self.trouble < 2 ^ 64 → Appended out.old out.new (tables_text self.same self.different self.trouble) }
    {
        let Some(compared) = self.same.checked_add(self.different) else {
            return;
        };
        let Some(total) = compared.checked_add(self.trouble) else {
            return;
        };
        out.append_decimal(total);
        out.append(b" tables: ");
        out.append_decimal(self.same);
        out.append(b" same, ");
        out.append_decimal(self.different);
        out.append(b" DIFFERENT");
        append_trouble(out, self.trouble);
        out.append(b"\n");
    }
}
