// How points lie by the line of a piece.
ghost use Rattle.std.specs.Prelude.{◌≡◌};
ghost use Rattle.point.specs.Accepted.{Accepted};
ghost use Rattle.meeting.specs.Parts.{AcceptedPiece, SideIs, sides_by};

use crate::answer::Piece;
use point::Point;
use sum::answer::Sign;

// The sign of p's side. No piece of accepted points is refused. `reason` has it too: with its `requires`, `geometry` cannot make it public.
pub fn side_of(a: Piece, p: Point) -> Sign
    requires { AcceptedPiece a × Accepted p }
    ensures { SideIs a p result }
{
    geometry::sign(a.from, a.to, p).unwrap()
}

// Two points by a line.
#[derive(Clone, Copy)]
pub enum Sides {
    // Both beside it, on one side.
    OneSide,
    // Both beside it, on opposite sides.
    Opposite,
    // Only the first on it.
    FirstOn,
    // Only the second on it.
    SecondOn,
    BothOn,
}

pub fn sides_of(u: Sign, v: Sign) -> Sides
    ensures { result ≡ sides_by u v }
{
    match (u, v) {
        (Sign::Zero, Sign::Zero) => Sides::BothOn,
        (Sign::Zero, Sign::Plus | Sign::Minus) => Sides::FirstOn,
        (Sign::Plus | Sign::Minus, Sign::Zero) => Sides::SecondOn,
        (Sign::Plus, Sign::Plus) | (Sign::Minus, Sign::Minus) => Sides::OneSide,
        (Sign::Plus, Sign::Minus) | (Sign::Minus, Sign::Plus) => Sides::Opposite,
    }
}
