use crate::fixed_bit_set::FixedBitSet;

// Answers as C takes them, each with its number. Number 0 is an accepted call.
#[repr(C)]
#[derive(Clone, Copy)]
pub struct Edited {
    pub number: u64,
    pub set: FixedBitSet,
}

#[repr(C)]
#[derive(Clone, Copy)]
pub struct Told {
    pub number: u64,
    pub yes: bool,
}

#[repr(C)]
#[derive(Clone, Copy)]
pub struct Counted {
    pub number: u64,
    pub count: usize,
}

// The record of a part of a walk: what is left of it are its positions from low up to high, which is not included.
#[repr(C)]
#[derive(Clone, Copy)]
pub struct Part {
    pub low: usize,
    pub high: usize,
}
