// What is counted of the lines of a text: how many are ended, how many items they name, whether a last line of a list is among them, and how many are bad.
#[derive(Clone, Copy, Default)]
pub struct Tally {
    pub lines: usize,
    pub named: usize,
    pub said: bool,
    pub bads: usize,
}
