ghost use Rattle.std.specs.Prelude.{◌≡◌};
ghost use Rattle.parts.specs.Helpers.{selected_word};

use crate::selections::Select;
use blocks::block;

// Word k of the selected positions; a bit past a slice's end is no.
pub(crate) fn selected_word<S: Select>(words: &[u64], other: &[u64], k: usize) -> u64
    ensures { result ≡ selected_word S.selection words.now other.now k }
{
    S::word(block(words, k), block(other, k))
}
