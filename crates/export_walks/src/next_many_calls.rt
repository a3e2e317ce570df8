ghost use Rattle.std.specs.Prelude.{◌≡◌};
ghost use Rattle.next_many.specs.Rules.{many_outcome, many_pair_outcome, ones_next_many_rule, zeroes_next_many_rule, intersection_next_many_rule, difference_next_many_rule, union_next_many_rule, symmetric_difference_next_many_rule};

use next_many::{
    NextMany, NextManyPair, difference_next_many, intersection_next_many, ones_next_many,
    symmetric_difference_next_many, union_next_many, zeroes_next_many,
};
use sets::{FixedBitSet, Part};

#[unsafe(no_mangle)]
pub extern "C" fn fbs_ones_next_many(
    set: FixedBitSet,
    words: &[u64],
    part: Part,
    out: &mut [u64],
) -> NextMany
    ensures { many_outcome result out.new ≡ ones_next_many_rule set words.now part out.old }
{
    NextMany::new(part, ones_next_many(set, words, part, out))
}

#[unsafe(no_mangle)]
pub extern "C" fn fbs_zeroes_next_many(
    set: FixedBitSet,
    words: &[u64],
    part: Part,
    out: &mut [u64],
) -> NextMany
    ensures { many_outcome result out.new ≡ zeroes_next_many_rule set words.now part out.old }
{
    NextMany::new(part, zeroes_next_many(set, words, part, out))
}

#[unsafe(no_mangle)]
pub extern "C" fn fbs_intersection_next_many(
    a: FixedBitSet,
    words: &[u64],
    b: FixedBitSet,
    other: &[u64],
    part: Part,
    out: &mut [u64],
) -> NextMany
    ensures { many_outcome result out.new ≡ intersection_next_many_rule a words.now b other.now part out.old }
{
    NextMany::new(part, intersection_next_many(a, words, b, other, part, out))
}

#[unsafe(no_mangle)]
pub extern "C" fn fbs_difference_next_many(
    a: FixedBitSet,
    words: &[u64],
    b: FixedBitSet,
    other: &[u64],
    part: Part,
    out: &mut [u64],
) -> NextMany
    ensures { many_outcome result out.new ≡ difference_next_many_rule a words.now b other.now part out.old }
{
    NextMany::new(part, difference_next_many(a, words, b, other, part, out))
}

#[unsafe(no_mangle)]
pub extern "C" fn fbs_union_next_many(
    a: FixedBitSet,
    words: &[u64],
    b: FixedBitSet,
    other: &[u64],
    one: Part,
    two: Part,
    out: &mut [u64],
) -> NextManyPair
    ensures { many_pair_outcome result out.new ≡ union_next_many_rule a words.now b other.now one two out.old }
{
    let answer = union_next_many(a, words, b, other, one, two, out);
    NextManyPair::new(one, two, answer)
}

#[unsafe(no_mangle)]
pub extern "C" fn fbs_symmetric_difference_next_many(
    a: FixedBitSet,
    words: &[u64],
    b: FixedBitSet,
    other: &[u64],
    one: Part,
    two: Part,
    out: &mut [u64],
) -> NextManyPair
    ensures { many_pair_outcome result out.new ≡ symmetric_difference_next_many_rule a words.now b other.now one two out.old }
{
    let answer = symmetric_difference_next_many(a, words, b, other, one, two, out);
    NextManyPair::new(one, two, answer)
}
