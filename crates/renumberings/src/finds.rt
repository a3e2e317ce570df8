ghost use Rattle.std.specs.Prelude.{◌≡◌, eqb, leb};
ghost use Rattle.std.specs.List.{list_any};
ghost use Rattle.renumber_steps.specs.Pairs.{sided_pair, sided, olds, repeats};
ghost use Rattle.renumber_steps.specs.Passes.{aboves};

use renumber_steps::{Pair, Side};

// Whether an offset is an old one. By the index: with `any` each pair took 6 instructions for 5, and pairs with offsets from 65,536 up 1.3 times as long.
fn has_old<S: Side>(pairs: &[Pair], offset: u64) -> bool
    ensures { result ≡ list_any (λ p. eqb (sided_pair S.back p).old offset) pairs.now }
{
    for k in 0..pairs.len() {
        if S::sided(pairs[k]).old == offset {
            return true;
        }
    }
    false
}

// Whether an old offset is not below a length.
pub(crate) fn has_beyond<S: Side>(pairs: &[Pair], bits: usize) -> bool
    ensures { result ≡ list_any (λ p. leb bits (sided_pair S.back p).old) pairs.now }
{
    pairs.iter().any(|pair| bits as u64 <= S::sided(*pair).old)
}

// Whether two old offsets from 65,536 up are equal: each is held against those behind it.
#[tactic(auto, using(renumber_steps::proofs::PassLaws::repeat_steps))]
pub(crate) fn repeats_above<S: Side>(pairs: &[Pair]) -> bool
    ensures { result ≡ repeats (aboves (olds (sided S.back pairs.now))) }
{
    for (k, pair) in pairs.iter().enumerate() {
        let old = S::sided(*pair).old;
        if 65536 <= old && has_old::<S>(&pairs[k + 1..], old) {
            return true;
        }
    }
    false
}
