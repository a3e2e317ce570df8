ghost use Rattle.std.specs.Prelude.{◌≡◌};
ghost use Rattle.listing_pieces.specs.Verdicts.{are_same};

use crate::set_pairs::SetPair;
use whole_walks::Walk;

// Whether two files have the same offsets; no where the words of one are no set.
pub fn same_offsets(words: &[u64], other: &[u64]) -> bool
    ensures { result ≡ are_same words.now other.now }
{
    let Ok(pair) = SetPair::new(words, other) else {
        return false;
    };
    if pair.walk_size(Walk::Difference) != 0 {
        return false;
    }
    pair.swapped().walk_size(Walk::Difference) == 0
}
