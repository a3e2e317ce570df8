ghost use Rattle.std.specs.Prelude.{◌≡◌, count_by};
ghost use Rattle.std.specs.List.{range_with_len};
ghost use Rattle.listing_lines.specs.Offsets.{offsets_of};
ghost use Rattle.pair_listings.specs.Tables.{entry_of, is_unpaired, unpaired_from, unpaired_count};

use blocks::block;
use sets::{FixedBitSet, member};

// Whether an offset is a member that no pair names.
#[tactic(auto, unfolding(crate::specs::Tables::is_unpaired, crate::specs::Tables::is_named))]
pub fn is_unpaired(words: &[u64], to: &[u64], p: usize) -> bool
    ensures { result ≡ is_unpaired (entry_of to.now) (offsets_of words.now) p }
{
    member(FixedBitSet::new(65536), words, p) && block(to, p) == 0
}

// The first member from a place on that no pair names, or none. `find` is no plainer: it takes a second function with a contract of its own, as `count_all` is, and a law from that to this equation.
pub fn first_unpaired(words: &[u64], to: &[u64], from: usize) -> Option<usize>
    ensures { result ≡ unpaired_from (entry_of to.now) (offsets_of words.now) from }
{
    for p in from..65536 {
        if is_unpaired(words, to, p) {
            return Some(p);
        }
    }
    None
}

// How many of them there are in the list of all offsets.
fn count_all(words: &[u64], to: &[u64]) -> usize
    ensures { result ≡ count_by (is_unpaired (entry_of to.now) (offsets_of words.now)) (range_with_len 0 65536) }
{
    (0..65536).filter(|p| is_unpaired(words, to, *p)).count()
}

// How many members no pair names.
pub fn count_unpaired(words: &[u64], to: &[u64]) -> usize
    ensures { result ≡ unpaired_count (entry_of to.now) (offsets_of words.now) }
{
    count_all(words, to)
}
