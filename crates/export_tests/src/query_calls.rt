ghost use Rattle.std.specs.Prelude.{◌≡◌};
ghost use Rattle.tests.specs.Rules.{contains_rule};
ghost use Rattle.tests.specs.Rules.{contains_all_rule, contains_any_rule, is_full_rule, is_clear_rule};
ghost use Rattle.tests.specs.Rules.{count_ones_rule, count_zeroes_rule};
ghost use Rattle.tests.specs.Rules.{minimum_rule, maximum_rule};
ghost use Rattle.export_answers.specs.Answers.{export_found};

use export_answers::FbsFound;
use extremes::{maximum, minimum};
use range_counts::{count_ones, count_zeroes};
use sets::{Counted, FixedBitSet, Told};
use tests::{contains, contains_all_in_range, contains_any_in_range, is_clear, is_full};

#[unsafe(no_mangle)]
pub extern "C" fn fbs_contains(set: FixedBitSet, words: &[u64], bit: usize) -> Told
    ensures { result ≡ contains_rule set words.now bit }
{
    Told::from(contains(set, words, bit))
}

#[unsafe(no_mangle)]
pub extern "C" fn fbs_contains_all_in_range(
    set: FixedBitSet,
    words: &[u64],
    start: usize,
    end: usize,
) -> Told
    ensures { result ≡ contains_all_rule set words.now start end }
{
    Told::from(contains_all_in_range(set, words, start, end))
}

#[unsafe(no_mangle)]
pub extern "C" fn fbs_contains_any_in_range(
    set: FixedBitSet,
    words: &[u64],
    start: usize,
    end: usize,
) -> Told
    ensures { result ≡ contains_any_rule set words.now start end }
{
    Told::from(contains_any_in_range(set, words, start, end))
}

#[unsafe(no_mangle)]
pub extern "C" fn fbs_is_full(set: FixedBitSet, words: &[u64]) -> Told
    ensures { result ≡ is_full_rule set words.now }
{
    Told::from(is_full(set, words))
}

#[unsafe(no_mangle)]
pub extern "C" fn fbs_is_clear(set: FixedBitSet, words: &[u64]) -> Told
    ensures { result ≡ is_clear_rule set words.now }
{
    Told::from(is_clear(set, words))
}

#[unsafe(no_mangle)]
pub extern "C" fn fbs_count_ones(
    set: FixedBitSet,
    words: &[u64],
    start: usize,
    end: usize,
) -> Counted
    ensures { result ≡ count_ones_rule set words.now start end }
{
    Counted::from(count_ones(set, words, start, end))
}

#[unsafe(no_mangle)]
pub extern "C" fn fbs_count_zeroes(
    set: FixedBitSet,
    words: &[u64],
    start: usize,
    end: usize,
) -> Counted
    ensures { result ≡ count_zeroes_rule set words.now start end }
{
    Counted::from(count_zeroes(set, words, start, end))
}

#[unsafe(no_mangle)]
pub extern "C" fn fbs_minimum(set: FixedBitSet, words: &[u64]) -> FbsFound
    ensures { result ≡ export_found (minimum_rule set words.now) }
{
    FbsFound::from(minimum(set, words))
}

#[unsafe(no_mangle)]
pub extern "C" fn fbs_maximum(set: FixedBitSet, words: &[u64]) -> FbsFound
    ensures { result ≡ export_found (maximum_rule set words.now) }
{
    FbsFound::from(maximum(set, words))
}
