// The limits of a zone: here once, for every crate above.

// The fewest corners.
pub const FEWEST: usize = 3;

// The most corners.
pub const MOST: usize = 64;
