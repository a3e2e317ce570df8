#![tactic(auto, using(byte_texts::proofs::TextLaws::written_more), unfolding(byte_texts::specs::Ascii::ascii, crate::specs::Messages::named_text, crate::specs::Messages::beyond_text))]

ghost use Rattle.text_lines.specs.Reports.{Says};
ghost use Rattle.pair_files.specs.Messages.{named_text, beyond_text, named_fault, beyond_fault, faults_text};

use crate::naming::Naming;
use text_lines::FileReport;

// An offset of a side that an earlier line named.
fn append_named(report: &mut FileReport, side: &[u8], offset: usize, first: u64)
    ensures { Says report.old report.new (named_text report.old.name.now report.old.tally.lines side.now offset first) }
{
    report.append_place(b"ERROR: ");
    report.text.append(side);
    report.text.append_decimal(offset as u64);
    report.text.append(b" was named on line ");
    report.text.append_decimal(first);
    report.text.append(b"\n");
}

// A new offset that is not below the length.
fn append_beyond(report: &mut FileReport, offset: usize, size: usize)
    ensures { Says report.old report.new (beyond_text report.old.name.now report.old.tally.lines offset size) }
{
    report.append_place(b"ERROR: ");
    report.text.append(b": new offset ");
    report.text.append_decimal(offset as u64);
    report.text.append(b" is not below the length ");
    report.text.append_decimal(size as u64);
    report.text.append(b"\n");
}

// The offset's fault, if its word of the table says that it was named.
#[tactic(auto, using(byte_texts::proofs::TextLaws::written_more), unfolding(crate::specs::Messages::named_fault))]
fn append_named_fault(report: &mut FileReport, side: &[u8], offset: usize, word: u64)
    ensures { Says report.old report.new (named_fault report.old.name.now report.old.tally.lines side.now offset word) }
{
    if word == 0 {
        report.text.append(b"");
    } else {
        append_named(report, side, offset, word / 65536);
    }
}

// The new offset's fault, if it is not below the length.
#[tactic(auto, using(byte_texts::proofs::TextLaws::written_more), unfolding(crate::specs::Messages::beyond_fault))]
fn append_beyond_fault(report: &mut FileReport, offset: usize, size: usize)
    ensures { Says report.old report.new (beyond_fault report.old.name.now report.old.tally.lines offset size) }
{
    if offset < size {
        report.text.append(b"");
    } else {
        append_beyond(report, offset, size);
    }
}

impl Naming {
    // All faults of the pair.
    pub(crate) fn append_faults(self, report: &mut FileReport, size: usize)
        ensures { Says report.old report.new (faults_text report.old.name.now report.old.tally.lines size self.pair.old self.pair.new self.was self.came) }
    {
        append_named_fault(report, b": old offset ", self.pair.old as usize, self.was);
        append_named_fault(report, b": new offset ", self.pair.new as usize, self.came);
        append_beyond_fault(report, self.pair.new as usize, size);
    }
}
