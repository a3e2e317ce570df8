// What a renumbering is: a list of pairs and the way it is read. The rule, its laws and its promises are in specs/ and proofs/.
#![tactic(auto)]

mod pair;

pub use pair::{AsListed, Pair, Side, Swapped};
