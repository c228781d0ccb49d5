// One edge of a zone and a point, all accepted: how the edge counts, and whether the point is a corner of it.
ghost use Rattle.std.specs.Prelude.{◌≡◌};
ghost use Rattle.ground.specs.Reason.{is_corner};
ghost use Rattle.point.specs.Accepted.{Accepted};
ghost use Rattle.point.specs.Spot.{spot_of};
ghost use Rattle.geometry.specs.Parts.{crossing_of};
ghost use Rattle.reason.specs.Parts.{edge_from, Held, SideIs};

use geometry::answer::Crossing;
use point::Point;
use sum::answer::Sign;

// The sign of p's side. No accepted points are refused. `meeting` has it too: with its `requires`, `geometry` cannot make it public.
fn side_of(a: Point, b: Point, p: Point) -> Sign
    requires { Accepted a × Accepted b × Accepted p }
    ensures { SideIs a b p result }
{
    geometry::sign(a, b, p).unwrap()
}

// The two ends of an edge.
#[derive(Clone, Copy)]
pub struct Ends {
    pub from: Point,
    pub to: Point,
}

impl Ends {
    // How the edge counts. Heights are compared first: most edges are done with that. The lower end counts, and the upper one does not.
    // `geometry` has it too, and cannot make it public: it has a `requires`.
    pub fn crossing(self, p: Point) -> Crossing
        requires { Held self.from × Held self.to × Held p }
        ensures { result ≡ crossing_of (edge_from self.from self.to) (spot_of p) }
    {
        let Ends { from, to } = self;
        if from.y <= p.y {
            if p.y < to.y && matches!(side_of(from, to, p), Sign::Plus) {
                Crossing::Up
            } else {
                Crossing::None
            }
        } else if to.y <= p.y && matches!(side_of(from, to, p), Sign::Minus) {
            Crossing::Down
        } else {
            Crossing::None
        }
    }

    // Whether p is a corner of the edge.
    pub fn has_corner(self, p: Point) -> bool
        requires { Held self.from × Held self.to × Held p }
        ensures { result ≡ is_corner (edge_from self.from self.to) (spot_of p) }
    {
        self.from == p || self.to == p
    }
}
