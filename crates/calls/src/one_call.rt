ghost use Rattle.std.specs.Prelude.{◌≡◌};
ghost use Rattle.sets.specs.Outcomes.{outcome};
ghost use Rattle.sets.specs.Refusals.{edited_of};
ghost use Rattle.edits.specs.Rules.{put_rule};
ghost use Rattle.calls.specs.Rules.{call_rule, meant};

use crate::call::Call;
use edits::{copy_bit, insert, insert_all, put, remove, set, toggle};
use growth::{clear, grow, grow_and_insert};
use range_edits::{insert_range, remove_range, set_range, toggle_range};
use sets::{FixedBitSet, Refusal};
use two_sets::{difference_with, intersect_with, symmetric_difference_with, union_with};

fn put_only(target: FixedBitSet, words: &mut [u64], bit: usize) -> Result<FixedBitSet, Refusal>
    ensures { outcome (edited_of target result) words.new ≡ (put_rule target words.old bit).edit }
{
    put(target, words, bit).map(|(after, _)| after)
}

// The call on the target, the other set read.
pub(crate) fn make_call(
    target: FixedBitSet,
    words: &mut [u64],
    read: FixedBitSet,
    other: &[u64],
    call: Call<'_>,
) -> Result<FixedBitSet, Refusal>
    ensures { outcome (edited_of target result) words.new ≡ call_rule target words.old read other.now (meant call.entry) }
{
    match call {
        Call::Insert(bit) => insert(target, words, bit),
        Call::Remove(bit) => remove(target, words, bit),
        Call::Put(bit) => put_only(target, words, bit),
        Call::Toggle(bit) => toggle(target, words, bit),
        Call::Set(bit, enabled) => set(target, words, bit, enabled),
        Call::CopyBit(from, to) => copy_bit(target, words, from, to),
        Call::InsertRange(start, end) => insert_range(target, words, start, end),
        Call::RemoveRange(start, end) => remove_range(target, words, start, end),
        Call::ToggleRange(start, end) => toggle_range(target, words, start, end),
        Call::SetRange(start, end, enabled) => set_range(target, words, start, end, enabled),
        Call::Clear => clear(target, words),
        Call::Grow(bits) => grow(target, words, bits),
        Call::GrowAndInsert(bit) => grow_and_insert(target, words, bit),
        Call::UnionWith => union_with(target, words, read, other),
        Call::IntersectWith => intersect_with(target, words, read, other),
        Call::DifferenceWith => difference_with(target, words, read, other),
        Call::SymmetricDifferenceWith => symmetric_difference_with(target, words, read, other),
        Call::InsertAll(positions) => insert_all(target, words, positions),
    }
}
