ghost use Rattle.std.specs.Prelude.{◌≡◌};
ghost use Rattle.walks.specs.Rules.{first_part, ones_next_rule, ones_next_back_rule, zeroes_next_rule};
ghost use Rattle.walkers.specs.Rules.{walker_rule};
ghost use Rattle.export_answers.specs.Answers.{export_stepped};
ghost use Rattle.export_walks.specs.Ends.{end_at};

use export_answers::FbsStepped;
use parts::End;
use sets::{FixedBitSet, Part};
use walkers::walker_step;
use walks::{first_part, ones_next, ones_next_back, zeroes_next};

// No `From`: a bool alone does not say which end it is.
fn end_at(back: bool) -> End
    ensures { result ≡ end_at back }
{
    if back { End::Back } else { End::Front }
}

#[unsafe(no_mangle)]
pub extern "C" fn fbs_first_part(set: FixedBitSet) -> Part
    ensures { result ≡ first_part set }
{
    first_part(set)
}

#[unsafe(no_mangle)]
pub extern "C" fn fbs_ones_next(set: FixedBitSet, words: &[u64], part: Part) -> FbsStepped
    ensures { result ≡ export_stepped (ones_next_rule set words.now part) }
{
    FbsStepped::new(part, ones_next(set, words, part))
}

#[unsafe(no_mangle)]
pub extern "C" fn fbs_ones_next_back(set: FixedBitSet, words: &[u64], part: Part) -> FbsStepped
    ensures { result ≡ export_stepped (ones_next_back_rule set words.now part) }
{
    FbsStepped::new(part, ones_next_back(set, words, part))
}

#[unsafe(no_mangle)]
pub extern "C" fn fbs_zeroes_next(set: FixedBitSet, words: &[u64], part: Part) -> FbsStepped
    ensures { result ≡ export_stepped (zeroes_next_rule set words.now part) }
{
    FbsStepped::new(part, zeroes_next(set, words, part))
}

#[unsafe(no_mangle)]
pub extern "C" fn fbs_walker_step(
    set: FixedBitSet,
    words: &[u64],
    part: Part,
    back: bool,
) -> FbsStepped
    ensures { result ≡ export_stepped (walker_rule set words.now part (end_at back)) }
{
    FbsStepped::new(part, walker_step(set, words, part, end_at(back)))
}
