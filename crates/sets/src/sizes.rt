ghost use Rattle.std.specs.Prelude.{◌≡◌};
ghost use Rattle.sets.specs.Members.{words_of};

// How many words a length takes.
#[tactic(auto, unfolding(crate::specs::Members::words_of))]
pub fn blocks_of(length: usize) -> usize
    ensures { result ≡ words_of length }
{
    length.div_ceil(64)
}
