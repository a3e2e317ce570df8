#![tactic(auto, using(byte_texts::proofs::TextLaws::written_more), unfolding(byte_texts::specs::Ascii::ascii, crate::specs::Messages::repeat_text))]

ghost use Rattle.text_lines.specs.Reports.{Says};
ghost use Rattle.offset_files.specs.Messages.{repeat_text};

use text_lines::FileReport;

// An offset that an earlier line named.
pub(crate) fn append_repeat(report: &mut FileReport, offset: usize, first: u64)
    ensures { Says report.old report.new (repeat_text report.old.name.now report.old.tally.lines offset first) }
{
    report.append_place(b"warning: ");
    report.text.append(b": offset ");
    report.text.append_decimal(offset as u64);
    report.text.append(b" was named on line ");
    report.text.append_decimal(first);
    report.text.append(b"\n");
}
