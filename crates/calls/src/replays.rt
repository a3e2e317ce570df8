ghost use Rattle.std.specs.Prelude.{◌≡◌, length, Ok};
ghost use Rattle.sets.specs.Members.{read};
ghost use Rattle.sets.specs.Questions.{both_questions};
ghost use Rattle.calls.specs.History.{history};
ghost use Rattle.calls.specs.Encoding.{decode_all};
ghost use Rattle.calls.specs.Rules.{replay_outcome, replay_rule, replayed_of, stored};

use crate::call::Call;
use crate::one_call::make_call;
use sets::{FixedBitSet, Refusal};

// Five numbers: the set, the call, two numbers and a yes or no. A refused call leaves both sets as they were. The set's number is matched where it stands: nothing else reads it, and an enum would only be matched again.
fn replay_one(
    a: FixedBitSet,
    words: &mut [u64],
    b: FixedBitSet,
    other: &mut [u64],
    numbers: [u64; 5],
    positions: &[u64],
) -> (FixedBitSet, FixedBitSet)
    requires { both_questions a words.old b other.old ≡ 0 }
    ensures { replay_outcome (replayed_of a b (Ok result)) words.new other.new ≡ stored words.old other.old (history (length words.old) (length other.old) (decode_all positions.now numbers) (record { a = read words.old a; b = read other.old b })) }
{
    let [on, code, x, y, z] = numbers;
    let Some(call) = Call::decode(positions, code, x as usize, y as usize, z != 0) else {
        return (a, b);
    };
    match on {
        0 => (make_call(a, words, b, other, call).unwrap_or(a), b),
        1 => (a, make_call(b, other, a, words, call).unwrap_or(b)),
        _ => (a, b),
    }
}

// The calls of the numbers, one after the other, on sets that pass 1 to 3.
fn replay_all(
    a: FixedBitSet,
    words: &mut [u64],
    b: FixedBitSet,
    other: &mut [u64],
    calls: &[u64],
    positions: &[u64],
) -> (FixedBitSet, FixedBitSet)
    requires { both_questions a words.old b other.old ≡ 0 }
    ensures { replay_outcome (replayed_of a b (Ok result)) words.new other.new ≡ stored words.old other.old (history (length words.old) (length other.old) (decode_all positions.now calls.now) (record { a = read words.old a; b = read other.old b })) }
{
    let mut first = a;
    let mut second = b;
    let (fives, _) = calls.as_chunks::<5>();
    for numbers in fives {
        (first, second) = replay_one(first, words, second, other, *numbers, positions);
    }
    (first, second)
}

// The calls of a list of numbers, five for each call, one after the other; each gets what the ones before it stored. `positions` has the lists that they mark.
pub fn replay(
    a: FixedBitSet,
    words: &mut [u64],
    b: FixedBitSet,
    other: &mut [u64],
    calls: &[u64],
    positions: &[u64],
) -> Result<(FixedBitSet, FixedBitSet), Refusal>
    ensures { replay_outcome (replayed_of a b result) words.new other.new ≡ replay_rule a words.old b other.old calls.now positions.now }
{
    a.check(words)?;
    b.check(other)?;
    Ok(replay_all(a, words, b, other, calls, positions))
}
