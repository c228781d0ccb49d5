// Exact products: a rounded product and its roundoff; and the twelve summands of stage 3.
ghost use Rattle.std.specs.Prelude.{◌≡◌, flat_map};
ghost use Rattle.double.proofs.Laws.ExactProduct.{Factors};
ghost use Rattle.point.specs.Accepted.{Accepted};
ghost use Rattle.geometry.specs.Product.{pair_of, summands_of};
ghost use Rattle.geometry.specs.Parts.{ExactProduct};

use crate::roundoff::roundoff;
use point::Point;

// A rounded product, and what it lacks of the exact one.
#[derive(Clone, Copy)]
pub struct Product {
    pub rounded: f64,
    pub roundoff: f64,
}

pub fn exact_product(x: f64, y: f64) -> Product
    requires { Factors x y }
    ensures { ExactProduct x y result }
{
    let rounded = x * y;
    Product {
        rounded,
        roundoff: roundoff(x, y, rounded),
    }
}

// The same as two summands: the product before its roundoff.
pub fn pair(x: f64, y: f64) -> [f64; 2]
    requires { Factors x y }
    ensures { result ≡ pair_of x y }
{
    let product = exact_product(x, y);
    [product.rounded, product.roundoff]
}

// The six pairs whose total is the determinant: flattened, they are the twelve summands.
pub fn summands(p: Point, q: Point, r: Point) -> [[f64; 2]; 6]
    requires { Accepted p × Accepted q × Accepted r }
    ensures { flat_map (λ pair. pair) result ≡ summands_of p q r }
{
    [
        pair(q.x, r.y),
        pair(-q.x, p.y),
        pair(-p.x, r.y),
        pair(-q.y, r.x),
        pair(q.y, p.x),
        pair(p.y, r.x),
    ]
}
