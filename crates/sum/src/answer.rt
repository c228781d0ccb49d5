// Every answer of this crate.

#[derive(Clone, Copy)]
pub enum Sign {
    Minus,
    Zero,
    Plus,
}

// A run: the verdict on the list that it leaves, and the steps that it took.
#[derive(Clone, Copy)]
pub struct Ran {
    pub verdict: Option<Sign>,
    pub steps: u32,
}
