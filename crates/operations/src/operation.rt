// What two bits make, where a call chooses it.
#[derive(Clone, Copy)]
pub enum Operation {
    Union,
    Intersection,
    Difference,
    SymmetricDifference,
}
