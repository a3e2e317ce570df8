ghost use Rattle.std.specs.Prelude.{◌≡◌, ◌≤◌, ◌<◌, MatchResult};
ghost use Rattle.whole_walks.specs.Numbers.{walk_of};

// The walks that have steps at both ends.
#[derive(Clone, Copy)]
pub enum Walk {
    Ones,
    Intersection,
    Difference,
    Union,
    SymmetricDifference,
}

// A number that no walk has.
#[derive(Clone, Copy, Debug, PartialEq, Eq)]
pub struct UnknownWalk(pub u64);

// The numbers by which C and stored histories name the walks.
impl TryFrom<u64> for Walk {
    type Error = UnknownWalk;

    ghost try_from_gives = { λ n r. MatchResult r (λ walk. (n ≤ 4) × (walk ≡ walk_of n)) (λ _. 4 < n) };

    fn try_from(number: u64) -> Result<Walk, UnknownWalk> {
        match number {
            0 => Ok(Walk::Ones),
            1 => Ok(Walk::Intersection),
            2 => Ok(Walk::Difference),
            3 => Ok(Walk::Union),
            4 => Ok(Walk::SymmetricDifference),
            _ => Err(UnknownWalk(number)),
        }
    }
}
