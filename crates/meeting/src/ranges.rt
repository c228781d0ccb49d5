// What two pieces can have in common, by comparisons alone.
ghost use Rattle.std.specs.Prelude.{◌≡◌, ◌||◌, ◌&&◌};
ghost use Rattle.meeting.specs.Parts.{lesser_of, greater_of, common_of, unless_empty, is_long_by, is_in_by, shared_of};

use crate::answer::Piece;
use point::Point;

// Not `min` of `f64`: of 0 and -0 it answers either.
fn lesser(a: f64, b: f64) -> f64
    ensures { result ≡ lesser_of a b }
{
    if b < a { b } else { a }
}

// Not `max` of `f64`, likewise.
fn greater(a: f64, b: f64) -> f64
    ensures { result ≡ greater_of a b }
{
    if a < b { b } else { a }
}

// From the least to the most, which count.
#[derive(Clone, Copy)]
pub struct Range {
    pub least: f64,
    pub most: f64,
}

impl Range {
    // What the range of a and b has in common with that of c and d, if anything.
    fn common(a: f64, b: f64, c: f64, d: f64) -> Option<Range>
        ensures { result ≡ unless_empty (common_of a b c d) }
    {
        let least = greater(lesser(a, b), lesser(c, d));
        let most = lesser(greater(a, b), greater(c, d));
        if most < least {
            return None;
        }
        Some(Range { least, most })
    }

    // Whether there is more than one number.
    fn is_long(self) -> bool
        ensures { result ≡ is_long_by self }
    {
        self.least < self.most
    }

    fn contains(self, v: f64) -> bool
        ensures { result ≡ is_in_by self v }
    {
        self.least <= v && v <= self.most
    }
}

// What the boxes of two pieces have in common: a range along each axis.
#[derive(Clone, Copy)]
pub struct Shared {
    pub x: Range,
    pub y: Range,
}

impl Shared {
    // None where the two have nothing in common along an axis: y is compared only where x does not tell it.
    pub fn of(a: Piece, b: Piece) -> Option<Shared>
        ensures { result ≡ shared_of a b }
    {
        let x = Range::common(a.from.x, a.to.x, b.from.x, b.to.x)?;
        let y = Range::common(a.from.y, a.to.y, b.from.y, b.to.y)?;
        Some(Shared { x, y })
    }

    // Whether there is more than one point.
    pub fn is_long(self) -> bool
        ensures { result ≡ (is_long_by self.x || is_long_by self.y) }
    {
        self.x.is_long() || self.y.is_long()
    }

    pub fn contains(self, p: Point) -> bool
        ensures { result ≡ (is_in_by self.x p.x && is_in_by self.y p.y) }
    {
        self.x.contains(p.x) && self.y.contains(p.y)
    }
}
