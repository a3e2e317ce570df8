use sets::Part;

// Which end of a part a step takes. The rules name it, and it is chosen once for a step, before any loop.
#[derive(Clone, Copy)]
pub enum End {
    Front,
    Back,
}

// A position or none, and what is left of the part after it.
#[derive(Clone, Copy)]
pub struct Step {
    pub at: Option<usize>,
    pub part: Part,
}
