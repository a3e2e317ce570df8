// An old offset and a new one. `renumber_steps::Pair` has the layout of the C interface.
#[derive(Clone, Copy)]
pub struct Pair {
    pub old: u16,
    pub new: u16,
}
