ghost use Rattle.std.specs.Prelude.{◌≡◌};
ghost use Rattle.sets.specs.Outcomes.{outcome};
ghost use Rattle.edits.specs.Rules.{insert_rule, remove_rule, toggle_rule, set_rule, copy_bit_rule, put_outcome, put_rule};
ghost use Rattle.edits.specs.Rules.{insert_range_rule, remove_range_rule, toggle_range_rule, set_range_rule};
ghost use Rattle.edits.specs.Rules.{clear_rule, grow_rule, grow_and_insert_rule, insert_all_rule};

use edits::{Replaced, copy_bit, insert, insert_all, put, remove, toggle};
use growth::{clear, grow, grow_and_insert};
use range_edits::{insert_range, remove_range, set_range, toggle_range};
use sets::{Edited, FixedBitSet};

#[unsafe(no_mangle)]
pub extern "C" fn fbs_insert(set: FixedBitSet, words: &mut [u64], bit: usize) -> Edited
    ensures { outcome result words.new ≡ insert_rule set words.old bit }
{
    Edited::new(set, insert(set, words, bit))
}

#[unsafe(no_mangle)]
pub extern "C" fn fbs_remove(set: FixedBitSet, words: &mut [u64], bit: usize) -> Edited
    ensures { outcome result words.new ≡ remove_rule set words.old bit }
{
    Edited::new(set, remove(set, words, bit))
}

#[unsafe(no_mangle)]
pub extern "C" fn fbs_put(set: FixedBitSet, words: &mut [u64], bit: usize) -> Replaced
    ensures { put_outcome result words.new ≡ put_rule set words.old bit }
{
    Replaced::new(set, put(set, words, bit))
}

#[unsafe(no_mangle)]
pub extern "C" fn fbs_toggle(set: FixedBitSet, words: &mut [u64], bit: usize) -> Edited
    ensures { outcome result words.new ≡ toggle_rule set words.old bit }
{
    Edited::new(set, toggle(set, words, bit))
}

#[unsafe(no_mangle)]
pub extern "C" fn fbs_set(set: FixedBitSet, words: &mut [u64], bit: usize, enabled: bool) -> Edited
    ensures { outcome result words.new ≡ set_rule set words.old bit enabled }
{
    Edited::new(set, edits::set(set, words, bit, enabled))
}

#[unsafe(no_mangle)]
pub extern "C" fn fbs_copy_bit(
    set: FixedBitSet,
    words: &mut [u64],
    from: usize,
    to: usize,
) -> Edited
    ensures { outcome result words.new ≡ copy_bit_rule set words.old from to }
{
    Edited::new(set, copy_bit(set, words, from, to))
}

#[unsafe(no_mangle)]
pub extern "C" fn fbs_insert_range(
    set: FixedBitSet,
    words: &mut [u64],
    start: usize,
    end: usize,
) -> Edited
    ensures { outcome result words.new ≡ insert_range_rule set words.old start end }
{
    Edited::new(set, insert_range(set, words, start, end))
}

#[unsafe(no_mangle)]
pub extern "C" fn fbs_remove_range(
    set: FixedBitSet,
    words: &mut [u64],
    start: usize,
    end: usize,
) -> Edited
    ensures { outcome result words.new ≡ remove_range_rule set words.old start end }
{
    Edited::new(set, remove_range(set, words, start, end))
}

#[unsafe(no_mangle)]
pub extern "C" fn fbs_toggle_range(
    set: FixedBitSet,
    words: &mut [u64],
    start: usize,
    end: usize,
) -> Edited
    ensures { outcome result words.new ≡ toggle_range_rule set words.old start end }
{
    Edited::new(set, toggle_range(set, words, start, end))
}

#[unsafe(no_mangle)]
pub extern "C" fn fbs_set_range(
    set: FixedBitSet,
    words: &mut [u64],
    start: usize,
    end: usize,
    enabled: bool,
) -> Edited
    ensures { outcome result words.new ≡ set_range_rule set words.old start end enabled }
{
    Edited::new(set, set_range(set, words, start, end, enabled))
}

#[unsafe(no_mangle)]
pub extern "C" fn fbs_clear(set: FixedBitSet, words: &mut [u64]) -> Edited
    ensures { outcome result words.new ≡ clear_rule set words.old }
{
    Edited::new(set, clear(set, words))
}

#[unsafe(no_mangle)]
pub extern "C" fn fbs_grow(set: FixedBitSet, words: &mut [u64], bits: usize) -> Edited
    ensures { outcome result words.new ≡ grow_rule set words.old bits }
{
    Edited::new(set, grow(set, words, bits))
}

#[unsafe(no_mangle)]
pub extern "C" fn fbs_grow_and_insert(set: FixedBitSet, words: &mut [u64], bit: usize) -> Edited
    ensures { outcome result words.new ≡ grow_and_insert_rule set words.old bit }
{
    Edited::new(set, grow_and_insert(set, words, bit))
}

#[unsafe(no_mangle)]
pub extern "C" fn fbs_insert_all(set: FixedBitSet, words: &mut [u64], positions: &[u64]) -> Edited
    ensures { outcome result words.new ≡ insert_all_rule set words.old positions.now }
{
    Edited::new(set, insert_all(set, words, positions))
}
