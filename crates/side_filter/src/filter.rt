// Stages 1 and 2 of a side: the answer where doubles alone are sure of it. (001, the filter.)
ghost use Rattle.std.specs.Prelude.{◌≡◌};
ghost use Rattle.side_filter.specs.Filter.{greater, filter_by, FilteredSays};

use crate::answer::Early;
use point::{Point, magnitude};

// The double nearest to 8.8872057372592758e-16, of pattern 3CD0028010000002.
const FILTER: f64 = 8.8872057372592758e-16;

// Not `max`, which leaves open which of two equals it gives, and of a NaN and a number gives the number: the rule takes the first.
fn greater_of(a: f64, b: f64) -> f64
    ensures { result ≡ greater a b }
{
    if a < b { b } else { a }
}

// What D, X and Y tell.
fn told_by(d: f64, x: f64, y: f64) -> Early
    ensures { result ≡ filter_by d x y }
{
    if x == 0.0 || y == 0.0 {
        return Early::Level;
    }
    let e = FILTER * x * y;
    if e < d {
        Early::Plus
    } else if d < -e {
        Early::Minus
    } else {
        Early::Open
    }
}

// The first two stages. Each difference, product, E and D is rounded once, as the formula has them. Of accepted points the answer is sure.
pub fn filtered(p: Point, q: Point, r: Point) -> Early
    ensures { FilteredSays p q r result }
{
    let qx = q.x - p.x;
    let qy = q.y - p.y;
    let rx = r.x - p.x;
    let ry = r.y - p.y;
    let x = greater_of(magnitude(qx), magnitude(rx));
    let y = greater_of(magnitude(qy), magnitude(ry));
    told_by(qx * ry - qy * rx, x, y)
}
