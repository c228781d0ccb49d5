// Every answer of this crate.
use sum::answer::Sign;

// The sign of the determinant, the stage that told it, and the steps of the sum in stage 3. +1 is counter-clockwise.
#[derive(Clone, Copy)]
pub struct Turn {
    pub sign: Sign,
    pub stage: u32,
    pub steps: u32,
}

#[derive(Clone, Copy)]
pub enum Place {
    Outside,
    // On the edge of this number, the first one in order.
    Border(usize),
    Inside,
}

// A sign, and the steps of the sum that told it.
#[derive(Clone, Copy)]
pub struct Signed {
    pub sign: Sign,
    pub steps: u32,
}

// How an edge counts for a point.
#[derive(Clone, Copy, PartialEq, Eq)]
pub enum Crossing {
    None,
    Up,
    Down,
}
