ghost use Rattle.std.specs.Prelude.{◌≡◌};
ghost use Rattle.sets.specs.Outcomes.{outcome};
ghost use Rattle.sets.specs.Questions.{questions};
ghost use Rattle.sets.specs.Rules.{with_capacity_rule, with_capacity_and_blocks_rule};
ghost use Rattle.sets.specs.Rules.{len_rule, is_empty_rule};
ghost use Rattle.export_answers.specs.Slices.{export_slice};

use export_answers::{FbsSlice, number};
use fresh_sets::{with_capacity, with_capacity_and_blocks};
use set_views::{as_slice, as_slice_number, is_empty, len};
use sets::{Counted, Edited, FixedBitSet, Told};

#[unsafe(no_mangle)]
pub extern "C" fn fbs_with_capacity(bits: usize, words: &mut [u64]) -> Edited
    ensures { outcome result words.new ≡ with_capacity_rule bits words.old }
{
    Edited::new(FixedBitSet::new(0), with_capacity(bits, words))
}

#[unsafe(no_mangle)]
pub extern "C" fn fbs_with_capacity_and_blocks(
    bits: usize,
    blocks: &[u64],
    words: &mut [u64],
) -> Edited
    ensures { outcome result words.new ≡ with_capacity_and_blocks_rule bits blocks.now words.old }
{
    Edited::new(
        FixedBitSet::new(0),
        with_capacity_and_blocks(bits, blocks, words),
    )
}

#[unsafe(no_mangle)]
pub extern "C" fn fbs_len(set: FixedBitSet, words: &[u64]) -> Counted
    ensures { result ≡ len_rule set words.now }
{
    Counted::from(len(set, words))
}

#[unsafe(no_mangle)]
pub extern "C" fn fbs_is_empty(set: FixedBitSet, words: &[u64]) -> Told
    ensures { result ≡ is_empty_rule set words.now }
{
    Told::from(is_empty(set, words))
}

#[unsafe(no_mangle)]
pub extern "C" fn fbs_as_slice(set: FixedBitSet, words: &[u64]) -> FbsSlice
    ensures { result ≡ export_slice set words.now }
{
    FbsSlice {
        offset: 0,
        count: as_slice(set, words).len(),
    }
}

#[unsafe(no_mangle)]
pub extern "C" fn fbs_as_slice_number(set: FixedBitSet, words: &[u64]) -> u64
    ensures { result ≡ questions set words.now }
{
    number(as_slice_number(set, words))
}
