ghost use Rattle.sets.specs.Checks.{Sound};

// A set that passes questions 1 to 3, and its own words: as many as its length takes.
#[derive(Clone, Copy)]
pub struct Checked<'a> {
    pub length: usize,
    pub words: &'a [u64],
    pub ghost sound: { Sound length words.now },
}
