ghost use Rattle.std.specs.Prelude.{◌≡◌, Bool, false, not};
ghost use Rattle.renumber_steps.specs.Pairs.{sided_pair};

use std::marker::PhantomData;

// An old offset and its new one.
#[repr(C)]
#[derive(Clone, Copy, Debug, PartialEq, Eq)]
pub struct Pair {
    pub old: u64,
    pub new: u64,
}

// Which side of a pair is read as the old one: each loop over pairs is made for one way.
pub trait Side {
    ghost back: { Bool };

    fn sided(pair: Pair) -> Pair
        ensures { result ≡ sided_pair back pair };
}

// As the list has them.
pub struct AsListed;

impl Side for AsListed {
    ghost back = { false };

    #[tactic(auto, unfolding(crate::specs::Pairs::sided_pair))]
    fn sided(pair: Pair) -> Pair {
        pair
    }
}

// The sides change places.
pub struct Swapped<S>(PhantomData<S>);

impl<S: Side> Side for Swapped<S> {
    ghost back = { not S.back };

    #[tactic(auto, using(crate::proofs::PairListLaws::swapped_pair))]
    fn sided(pair: Pair) -> Pair {
        let sided = S::sided(pair);
        Pair {
            old: sided.new,
            new: sided.old,
        }
    }
}
