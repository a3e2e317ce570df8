#![tactic(auto, using(byte_texts::proofs::TextLaws::written_more), unfolding(byte_texts::specs::Ascii::ascii, crate::specs::Messages::reason_text, crate::specs::Messages::wrong_text))]

ghost use Rattle.byte_texts.specs.Growth.{Appended};
ghost use Rattle.text_lines.specs.Messages.{reason_text, wrong_text};

use byte_texts::Text;

// Why a line may not stand there: in words, or a last line of a list that says another number than the list names items, `items` being the words between the two numbers.
#[derive(Clone, Copy)]
pub enum Reason<'a> {
    Words(&'a [u8]),
    WrongCount(usize, &'a [u8], usize),
}

// The numbers of a wrong last line.
fn append_numbers(report: &mut Text, says: usize, items: &[u8], names: usize)
    ensures { Appended report.old report.new (wrong_text says items.now names) }
{
    report.append(b"says ");
    report.append_decimal(says as u64);
    report.append(items);
    report.append_decimal(names as u64);
}

impl<'a> Reason<'a> {
    pub(crate) fn append(self, report: &mut Text)
        ensures { Appended report.old report.new (reason_text self.entry) }
    {
        match self {
            Reason::Words(words) => report.append(words),
            Reason::WrongCount(says, items, names) => append_numbers(report, says, items, names),
        }
    }
}
