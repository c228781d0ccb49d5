// The limits of a file (Track 3), here once for every crate above.

// The most points.
pub const POINTS: usize = 512;

// Two coordinates for each.
pub const COORDINATES: usize = 2 * POINTS;

// The most bytes: two for the count, and ten for each coordinate.
pub const BYTES: usize = 2 + 10 * COORDINATES;
