ghost use Rattle.std.specs.Prelude.{◌≡◌};
ghost use Rattle.sets.specs.Questions.{both_questions};
ghost use Rattle.two_set_counts.specs.Rules.{union_count_rule, intersection_count_rule, difference_count_rule, symmetric_difference_count_rule};
ghost use Rattle.comparisons.specs.Rules.{is_disjoint_rule, is_subset_rule, is_superset_rule};
ghost use Rattle.comparisons.specs.Rules.{eq_rule, cmp_rule};
ghost use Rattle.export_answers.specs.Slices.{export_longer};

use comparisons::{Compared, cmp, eq, is_disjoint, is_subset, is_superset, longer, longer_number};
use export_answers::{FbsLonger, number};
use sets::{Counted, FixedBitSet, Told};
use two_set_counts::{
    difference_count, intersection_count, symmetric_difference_count, union_count,
};

#[unsafe(no_mangle)]
pub extern "C" fn fbs_union_count(
    a: FixedBitSet,
    words: &[u64],
    b: FixedBitSet,
    other: &[u64],
) -> Counted
    ensures { result ≡ union_count_rule a words.now b other.now }
{
    Counted::from(union_count(a, words, b, other))
}

#[unsafe(no_mangle)]
pub extern "C" fn fbs_intersection_count(
    a: FixedBitSet,
    words: &[u64],
    b: FixedBitSet,
    other: &[u64],
) -> Counted
    ensures { result ≡ intersection_count_rule a words.now b other.now }
{
    Counted::from(intersection_count(a, words, b, other))
}

#[unsafe(no_mangle)]
pub extern "C" fn fbs_difference_count(
    a: FixedBitSet,
    words: &[u64],
    b: FixedBitSet,
    other: &[u64],
) -> Counted
    ensures { result ≡ difference_count_rule a words.now b other.now }
{
    Counted::from(difference_count(a, words, b, other))
}

#[unsafe(no_mangle)]
pub extern "C" fn fbs_symmetric_difference_count(
    a: FixedBitSet,
    words: &[u64],
    b: FixedBitSet,
    other: &[u64],
) -> Counted
    ensures { result ≡ symmetric_difference_count_rule a words.now b other.now }
{
    Counted::from(symmetric_difference_count(a, words, b, other))
}

#[unsafe(no_mangle)]
pub extern "C" fn fbs_is_disjoint(
    a: FixedBitSet,
    words: &[u64],
    b: FixedBitSet,
    other: &[u64],
) -> Told
    ensures { result ≡ is_disjoint_rule a words.now b other.now }
{
    Told::from(is_disjoint(a, words, b, other))
}

#[unsafe(no_mangle)]
pub extern "C" fn fbs_is_subset(
    a: FixedBitSet,
    words: &[u64],
    b: FixedBitSet,
    other: &[u64],
) -> Told
    ensures { result ≡ is_subset_rule a words.now b other.now }
{
    Told::from(is_subset(a, words, b, other))
}

#[unsafe(no_mangle)]
pub extern "C" fn fbs_is_superset(
    a: FixedBitSet,
    words: &[u64],
    b: FixedBitSet,
    other: &[u64],
) -> Told
    ensures { result ≡ is_superset_rule a words.now b other.now }
{
    Told::from(is_superset(a, words, b, other))
}

#[unsafe(no_mangle)]
pub extern "C" fn fbs_eq(a: FixedBitSet, words: &[u64], b: FixedBitSet, other: &[u64]) -> Told
    ensures { result ≡ eq_rule a words.now b other.now }
{
    Told::from(eq(a, words, b, other))
}

#[unsafe(no_mangle)]
pub extern "C" fn fbs_cmp(a: FixedBitSet, words: &[u64], b: FixedBitSet, other: &[u64]) -> Compared
    ensures { result ≡ cmp_rule a words.now b other.now }
{
    Compared::from(cmp(a, words, b, other))
}

#[unsafe(no_mangle)]
pub extern "C" fn fbs_longer<'a>(
    a: FixedBitSet,
    words: &'a [u64],
    b: FixedBitSet,
    other: &'a [u64],
) -> FbsLonger
    ensures { result ≡ export_longer a words.now b other.now }
{
    let part = longer(a, words, b, other);
    FbsLonger {
        second: longer_number(a, words, b, other).is_ok() && a.length <= b.length,
        offset: 0,
        count: part.len(),
    }
}

#[unsafe(no_mangle)]
pub extern "C" fn fbs_longer_number(
    a: FixedBitSet,
    words: &[u64],
    b: FixedBitSet,
    other: &[u64],
) -> u64
    ensures { result ≡ both_questions a words.now b other.now }
{
    number(longer_number(a, words, b, other))
}
