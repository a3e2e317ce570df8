ghost use Rattle.std.specs.Prelude.{◌≡◌};
ghost use Rattle.sets.specs.Outcomes.{outcome};
ghost use Rattle.two_sets.specs.Rules.{union_with_rule, symmetric_difference_with_rule, intersect_with_rule, difference_with_rule};
ghost use Rattle.two_sets.specs.Rules.{bitand_rule, bitor_rule, bitxor_rule};

use sets::{Edited, FixedBitSet};
use two_sets::{
    bitand, bitor, bitxor, difference_with, intersect_with, symmetric_difference_with, union_with,
};

#[unsafe(no_mangle)]
pub extern "C" fn fbs_union_with(
    a: FixedBitSet,
    words: &mut [u64],
    b: FixedBitSet,
    other: &[u64],
) -> Edited
    ensures { outcome result words.new ≡ union_with_rule a words.old b other.now }
{
    Edited::new(a, union_with(a, words, b, other))
}

#[unsafe(no_mangle)]
pub extern "C" fn fbs_intersect_with(
    a: FixedBitSet,
    words: &mut [u64],
    b: FixedBitSet,
    other: &[u64],
) -> Edited
    ensures { outcome result words.new ≡ intersect_with_rule a words.old b other.now }
{
    Edited::new(a, intersect_with(a, words, b, other))
}

#[unsafe(no_mangle)]
pub extern "C" fn fbs_difference_with(
    a: FixedBitSet,
    words: &mut [u64],
    b: FixedBitSet,
    other: &[u64],
) -> Edited
    ensures { outcome result words.new ≡ difference_with_rule a words.old b other.now }
{
    Edited::new(a, difference_with(a, words, b, other))
}

#[unsafe(no_mangle)]
pub extern "C" fn fbs_symmetric_difference_with(
    a: FixedBitSet,
    words: &mut [u64],
    b: FixedBitSet,
    other: &[u64],
) -> Edited
    ensures { outcome result words.new ≡ symmetric_difference_with_rule a words.old b other.now }
{
    Edited::new(a, symmetric_difference_with(a, words, b, other))
}

#[unsafe(no_mangle)]
pub extern "C" fn fbs_bitand(
    a: FixedBitSet,
    words: &[u64],
    b: FixedBitSet,
    other: &[u64],
    out: &mut [u64],
) -> Edited
    ensures { outcome result out.new ≡ bitand_rule a words.now b other.now out.old }
{
    Edited::new(FixedBitSet::new(0), bitand(a, words, b, other, out))
}

#[unsafe(no_mangle)]
pub extern "C" fn fbs_bitor(
    a: FixedBitSet,
    words: &[u64],
    b: FixedBitSet,
    other: &[u64],
    out: &mut [u64],
) -> Edited
    ensures { outcome result out.new ≡ bitor_rule a words.now b other.now out.old }
{
    Edited::new(FixedBitSet::new(0), bitor(a, words, b, other, out))
}

#[unsafe(no_mangle)]
pub extern "C" fn fbs_bitxor(
    a: FixedBitSet,
    words: &[u64],
    b: FixedBitSet,
    other: &[u64],
    out: &mut [u64],
) -> Edited
    ensures { outcome result out.new ≡ bitxor_rule a words.now b other.now out.old }
{
    Edited::new(FixedBitSet::new(0), bitxor(a, words, b, other, out))
}
