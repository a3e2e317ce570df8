ghost use Rattle.std.specs.Prelude.{◌≡◌, ℕ};
ghost use Rattle.sets.specs.Members.{bit_of};
ghost use Rattle.parts.specs.Selections.{selected};
ghost use Rattle.parts.specs.Steps.{front, back, step};

use crate::records::{End, Step};
use crate::search::{back_selected, front_selected};
use crate::selections::Select;
use sets::Part;

fn front_step<S: Select>(words: &[u64], other: &[u64], part: Part) -> Step
    ensures { result ≡ front (λ (p : ℕ). selected S.selection (bit_of words.now p) (bit_of other.now p)) part }
{
    let low = part.low;
    let high = part.high;
    match front_selected::<S>(words, other, low, high) {
        Some(p) if p < high => Step {
            at: Some(p),
            part: Part { low: p + 1, high },
        },
        _ => Step { at: None, part },
    }
}

fn back_step<S: Select>(words: &[u64], other: &[u64], part: Part) -> Step
    ensures { result ≡ back (λ (p : ℕ). selected S.selection (bit_of words.now p) (bit_of other.now p)) part }
{
    let low = part.low;
    let high = part.high;
    match back_selected::<S>(words, other, low, high) {
        Some(p) if low <= p => Step {
            at: Some(p),
            part: Part { low, high: p },
        },
        _ => Step { at: None, part },
    }
}

// A step over the bits of two slices; a bit past a slice's end is no.
pub fn step_selected<S: Select>(words: &[u64], other: &[u64], part: Part, end: End) -> Step
    ensures { result ≡ step end (λ (p : ℕ). selected S.selection (bit_of words.now p) (bit_of other.now p)) part }
{
    match end {
        End::Front => front_step::<S>(words, other, part),
        End::Back => back_step::<S>(words, other, part),
    }
}
