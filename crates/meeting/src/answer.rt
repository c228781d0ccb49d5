// What this crate is asked of, and every answer.
use point::Point;

// The straight way from one point to another. The two may be equal.
#[derive(Clone, Copy)]
pub struct Piece {
    pub from: Point,
    pub to: Point,
}

#[derive(Clone, Copy)]
pub enum Meeting {
    // No point is shared.
    Apart,
    // Exactly one point is, and it is an end of either.
    Touching,
    // Exactly one point is, and it is an end of neither.
    Crossing,
    // More than one point is.
    Overlapping,
}
