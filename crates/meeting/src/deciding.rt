// How two pieces of accepted points meet: by boxes first, and then by as few sides as tell it.
ghost use Rattle.std.specs.Prelude.{◌≡◌};
ghost use Rattle.point.specs.Accepted.{Accepted};
ghost use Rattle.point.specs.Spot.{spot_of};
ghost use Rattle.pieces.specs.Parts as found;
ghost use Rattle.meeting.specs.Meet.{edge_of, meeting_said};
ghost use Rattle.meeting.specs.Parts.{AcceptedPiece, InCommon, SideIs, Opposed, on_line_by, by_end_by, is_dot_by};

use crate::answer::{Meeting, Piece};
use crate::ranges::Shared;
use crate::sided::{Sides, side_of, sides_of};
use point::Point;
use sum::answer::Sign;

// All on one line, where the boxes have something in common.
fn on_line(shared: Shared) -> Meeting
    ensures { result ≡ on_line_by shared }
{
    if shared.is_long() {
        Meeting::Overlapping
    } else {
        Meeting::Touching
    }
}

// Only the end p of a piece is on the line of the other: shared if it is in what the boxes have in common.
fn by_end(shared: Shared, p: Point) -> Meeting
    ensures { result ≡ by_end_by shared p }
{
    if shared.contains(p) {
        Meeting::Touching
    } else {
        Meeting::Apart
    }
}

// The ends of b are on opposite sides of a's line: by both ends of a, the first of which is on the side w of b.
fn by_both(a: Piece, b: Piece, w: Sign) -> Meeting
    requires { AcceptedPiece a × AcceptedPiece b × SideIs b a.from w }
    ensures { meeting_said result ≡ found.through (edge_of a) (edge_of b) }
{
    let z = side_of(b, a.to);
    match sides_of(w, z) {
        Sides::OneSide => Meeting::Apart,
        Sides::Opposite => Meeting::Crossing,
        Sides::FirstOn | Sides::SecondOn | Sides::BothOn => Meeting::Touching,
    }
}

// The ends of b are on opposite sides of a's line, and b begins on the side u. Where a begins on the side u of b, it ends there too; where it
// begins on b's line, it touches. Its second end is asked only where neither is so.
fn through(a: Piece, b: Piece, u: Sign) -> Meeting
    requires { AcceptedPiece a × AcceptedPiece b × SideIs a b.from u × Opposed a b }
    ensures { meeting_said result ≡ found.through (edge_of a) (edge_of b) }
{
    let w = side_of(b, a.from);
    match sides_of(u, w) {
        Sides::OneSide => Meeting::Apart,
        Sides::Opposite => by_both(a, b, w),
        Sides::FirstOn | Sides::SecondOn | Sides::BothOn => Meeting::Touching,
    }
}

// Two pieces that have a length, by the sides of b's ends.
fn of_long(a: Piece, b: Piece, shared: Shared) -> Meeting
    requires { AcceptedPiece a × AcceptedPiece b × InCommon a b shared }
    ensures { meeting_said result ≡ found.of_long (edge_of a) (edge_of b) }
{
    let u = side_of(a, b.from);
    let v = side_of(a, b.to);
    match sides_of(u, v) {
        Sides::OneSide => Meeting::Apart,
        Sides::Opposite => through(a, b, u),
        Sides::FirstOn => by_end(shared, b.from),
        Sides::SecondOn => by_end(shared, b.to),
        Sides::BothOn => on_line(shared),
    }
}

// A point in the box of a piece: on it, or beside it.
fn of_dot(a: Piece, p: Point) -> Meeting
    requires { AcceptedPiece a × Accepted p }
    ensures { meeting_said result ≡ found.of_dot (edge_of a) (spot_of p) }
{
    match side_of(a, p) {
        Sign::Zero => Meeting::Touching,
        Sign::Plus | Sign::Minus => Meeting::Apart,
    }
}

fn is_dot(a: Piece) -> bool
    ensures { result ≡ is_dot_by a }
{
    a.from == a.to
}

// Two pieces whose boxes have something in common.
fn in_boxes(a: Piece, b: Piece, shared: Shared) -> Meeting
    requires { AcceptedPiece a × AcceptedPiece b × InCommon a b shared }
    ensures { meeting_said result ≡ found.in_boxes (edge_of a) (edge_of b) }
{
    match (is_dot(a), is_dot(b)) {
        (true, true) => Meeting::Touching,
        (true, false) => of_dot(b, a.from),
        (false, true) => of_dot(a, b.from),
        (false, false) => of_long(a, b, shared),
    }
}

pub fn decide(a: Piece, b: Piece) -> Meeting
    requires { AcceptedPiece a × AcceptedPiece b }
    ensures { meeting_said result ≡ found.decided (edge_of a) (edge_of b) }
{
    match Shared::of(a, b) {
        None => Meeting::Apart,
        Some(shared) => in_boxes(a, b, shared),
    }
}
