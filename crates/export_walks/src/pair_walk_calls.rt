ghost use Rattle.std.specs.Prelude.{◌≡◌};
ghost use Rattle.walks.specs.Rules.{intersection_next_rule, intersection_next_back_rule, difference_next_rule, difference_next_back_rule};
ghost use Rattle.walks.specs.Rules.{union_next_rule, union_next_back_rule, symmetric_difference_next_rule, symmetric_difference_next_back_rule};
ghost use Rattle.export_answers.specs.Answers.{export_stepped, export_stepped_pair};

use export_answers::{FbsStepped, FbsSteppedPair};
use sets::{FixedBitSet, Part};
use two_part_walks::{
    symmetric_difference_next, symmetric_difference_next_back, union_next, union_next_back,
};
use walks::{difference_next, difference_next_back, intersection_next, intersection_next_back};

#[unsafe(no_mangle)]
pub extern "C" fn fbs_intersection_next(
    a: FixedBitSet,
    words: &[u64],
    b: FixedBitSet,
    other: &[u64],
    part: Part,
) -> FbsStepped
    ensures { result ≡ export_stepped (intersection_next_rule a words.now b other.now part) }
{
    FbsStepped::new(part, intersection_next(a, words, b, other, part))
}

#[unsafe(no_mangle)]
pub extern "C" fn fbs_intersection_next_back(
    a: FixedBitSet,
    words: &[u64],
    b: FixedBitSet,
    other: &[u64],
    part: Part,
) -> FbsStepped
    ensures { result ≡ export_stepped (intersection_next_back_rule a words.now b other.now part) }
{
    FbsStepped::new(part, intersection_next_back(a, words, b, other, part))
}

#[unsafe(no_mangle)]
pub extern "C" fn fbs_difference_next(
    a: FixedBitSet,
    words: &[u64],
    b: FixedBitSet,
    other: &[u64],
    part: Part,
) -> FbsStepped
    ensures { result ≡ export_stepped (difference_next_rule a words.now b other.now part) }
{
    FbsStepped::new(part, difference_next(a, words, b, other, part))
}

#[unsafe(no_mangle)]
pub extern "C" fn fbs_difference_next_back(
    a: FixedBitSet,
    words: &[u64],
    b: FixedBitSet,
    other: &[u64],
    part: Part,
) -> FbsStepped
    ensures { result ≡ export_stepped (difference_next_back_rule a words.now b other.now part) }
{
    FbsStepped::new(part, difference_next_back(a, words, b, other, part))
}

#[unsafe(no_mangle)]
pub extern "C" fn fbs_union_next(
    a: FixedBitSet,
    words: &[u64],
    b: FixedBitSet,
    other: &[u64],
    one: Part,
    two: Part,
) -> FbsSteppedPair
    ensures { result ≡ export_stepped_pair (union_next_rule a words.now b other.now one two) }
{
    FbsSteppedPair::new(one, two, union_next(a, words, b, other, one, two))
}

#[unsafe(no_mangle)]
pub extern "C" fn fbs_union_next_back(
    a: FixedBitSet,
    words: &[u64],
    b: FixedBitSet,
    other: &[u64],
    one: Part,
    two: Part,
) -> FbsSteppedPair
    ensures { result ≡ export_stepped_pair (union_next_back_rule a words.now b other.now one two) }
{
    FbsSteppedPair::new(one, two, union_next_back(a, words, b, other, one, two))
}

#[unsafe(no_mangle)]
pub extern "C" fn fbs_symmetric_difference_next(
    a: FixedBitSet,
    words: &[u64],
    b: FixedBitSet,
    other: &[u64],
    one: Part,
    two: Part,
) -> FbsSteppedPair
    ensures { result ≡ export_stepped_pair (symmetric_difference_next_rule a words.now b other.now one two) }
{
    FbsSteppedPair::new(
        one,
        two,
        symmetric_difference_next(a, words, b, other, one, two),
    )
}

#[unsafe(no_mangle)]
pub extern "C" fn fbs_symmetric_difference_next_back(
    a: FixedBitSet,
    words: &[u64],
    b: FixedBitSet,
    other: &[u64],
    one: Part,
    two: Part,
) -> FbsSteppedPair
    ensures { result ≡ export_stepped_pair (symmetric_difference_next_back_rule a words.now b other.now one two) }
{
    FbsSteppedPair::new(
        one,
        two,
        symmetric_difference_next_back(a, words, b, other, one, two),
    )
}
