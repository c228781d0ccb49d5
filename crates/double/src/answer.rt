// Every answer of this crate.

// A finite double's sign bit, significand and exponent: its magnitude is significand * 2^(exponent - 1074).
// The significand is below 2^53, and the exponent from 0 to 2,045; zeros and subnormals have exponent 0.
#[derive(Clone, Copy)]
pub struct Parts {
    pub negative: bool,
    pub significand: u64,
    pub exponent: u32,
}
