// One edge of a zone and a point, all accepted: whether it is on the edge, and how the edge counts.
ghost use Rattle.std.specs.Prelude.{◌≡◌};
ghost use Rattle.whole.specs.Sign.{sgn};
ghost use Rattle.ground.specs.Edge.{edge, on_edge, side_of_edge};
ghost use Rattle.point.specs.Accepted.{Accepted};
ghost use Rattle.point.specs.Spot.{spot_of};
ghost use Rattle.sum.specs.Total.{sign_number};
ghost use Rattle.geometry.specs.Parts.{lies_between, crossing_of};

use crate::answer::Crossing;
use crate::turning::turn;
use point::Point;
use sum::answer::Sign;

// Whether v lies from a to b or from b to a. As one `||` it is slower.
fn lies_between(a: f64, b: f64, v: f64) -> bool
    ensures { result ≡ lies_between a b v }
{
    if a <= v && v <= b {
        true
    } else {
        b <= v && v <= a
    }
}

// On which side of the edge from a to b p is.
fn side_of(a: Point, b: Point, p: Point) -> Sign
    requires { Accepted a × Accepted b × Accepted p }
    ensures { sign_number result ≡ sgn (side_of_edge (edge (spot_of a) (spot_of b)) (spot_of p)) }
{
    turn(a, b, p).sign
}

// Whether p is on the edge from a to b. Its box is compared first: most edges are done with that.
pub fn meets(a: Point, b: Point, p: Point) -> bool
    requires { Accepted a × Accepted b × Accepted p }
    ensures { result ≡ on_edge (edge (spot_of a) (spot_of b)) (spot_of p) }
{
    lies_between(a.y, b.y, p.y)
        && lies_between(a.x, b.x, p.x)
        && matches!(side_of(a, b, p), Sign::Zero)
}

// How the edge from a to b counts: it includes its lower end and not its upper one. Heights are compared first, likewise. Where
// branches join, a zone takes more instructions.
pub fn crosses(a: Point, b: Point, p: Point) -> Crossing
    requires { Accepted a × Accepted b × Accepted p }
    ensures { result ≡ crossing_of (edge (spot_of a) (spot_of b)) (spot_of p) }
{
    if a.y <= p.y {
        if p.y < b.y {
            match side_of(a, b, p) {
                Sign::Plus => Crossing::Up,
                _ => Crossing::None,
            }
        } else {
            Crossing::None
        }
    } else if b.y <= p.y {
        match side_of(a, b, p) {
            Sign::Minus => Crossing::Down,
            _ => Crossing::None,
        }
    } else {
        Crossing::None
    }
}
