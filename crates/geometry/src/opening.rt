// The 96 summands of four points with heights: 24 products of three coordinates, each opened into two pairs.
ghost use Rattle.std.specs.Prelude.{◌≡◌, [], ◌∷◌};
ghost use Rattle.std.specs.Float.Ieee.{neg};
ghost use Rattle.double.proofs.Laws.Sized.{Reach};
ghost use Rattle.point.specs.High.{high_reach, HighAccepted};
ghost use Rattle.point.proofs.Laws.Within.{HighWithin};
ghost use Rattle.geometry.specs.Plane.{three, products_of, opened};
ghost use Rattle.geometry.specs.Parts.{six_from, eight_in, row_in, rows_in};

use crate::product::{exact_product, pair};
use point::HighPoint;

// The eight summands of two products, as pairs; the 24 of one x; and all of them. Flattened, they are in order.
type Eight = [[f64; 2]; 4];

type Row = [Eight; 3];

pub type Rows = [Row; 4];

// The summands of x·y times one height and of -x·y times another: x meets y once for both.
fn open_both(x: f64, y: f64, one: f64, other: f64) -> Eight
    requires { Reach high_reach x × Reach high_reach y × Reach high_reach one × Reach high_reach other }
    ensures { eight_in result ≡ opened (three x y one ∷ three (neg x) y other ∷ []) }
{
    let a = exact_product(x, y);
    // A roundoff of nothing stays +0.
    let less = 0.0 - a.roundoff;
    [
        pair(a.rounded, one),
        pair(a.roundoff, one),
        pair(-a.rounded, other),
        pair(less, other),
    ]
}

// The summands of one x, with y and height of the other three points in order. The sign of x is that of the first product.
fn open_each(x: f64, a: HighPoint, b: HighPoint, c: HighPoint) -> Row
    requires { Reach high_reach x × HighWithin high_reach a × HighWithin high_reach b × HighWithin high_reach c }
    ensures { row_in result ≡ opened (six_from x (neg x) a b c) }
{
    [
        open_both(x, a.y, b.height, c.height),
        open_both(-x, b.y, a.height, c.height),
        open_both(x, c.y, a.height, b.height),
    ]
}

// All summands, in the order of the points that give x, then y, then height.
pub fn open_all(p: HighPoint, q: HighPoint, r: HighPoint, s: HighPoint) -> Rows
    requires { HighAccepted p × HighAccepted q × HighAccepted r × HighAccepted s }
    ensures { rows_in result ≡ opened (products_of p q r s) }
{
    [
        open_each(p.x, q, r, s),
        open_each(-q.x, p, r, s),
        open_each(r.x, p, q, s),
        open_each(-s.x, p, q, r),
    ]
}
