// The zone test.
ghost use Rattle.std.specs.Prelude.{◌≡◌, ◌+◌, ◌*◌, ◌≤◌, ◌<◌, length};
ghost use Rattle.ground.specs.Edge.{edges_of};
ghost use Rattle.refusal.specs.Outcome.{outcome};
ghost use Rattle.point.specs.Accepted.{Accepted, accepting_from};
ghost use Rattle.point.specs.Spot.{spot_of};
ghost use Rattle.geometry.specs.Zone.{most, corners_of, place_in, place_said, corner_at, Zoned, ZoneSays};
ghost use Rattle.geometry.specs.Parts.{with_edge, counts_of};

use crate::answer::{Crossing, Place};
use crate::corner::next_of;
use crate::edges::{crosses, meets};
use crate::limit::{FEWEST, MOST};
use point::{Point, accepted};
use refusal::{Kind, Refusal, refused};

fn corner_at(corners: &[f64], k: usize) -> Point
    requires { (k < most) × (2 * k + 1 < length corners.now) }
    ensures { result ≡ corner_at corners.now k }
{
    Point {
        x: corners[2 * k],
        y: corners[2 * k + 1],
    }
}

// How many edges count upward, and how many downward.
#[derive(Clone, Copy)]
struct Counts {
    ups: usize,
    downs: usize,
}

fn with_edge(c: Counts, crossing: Crossing) -> Counts
    requires { (c.ups ≤ most) × (c.downs ≤ most) }
    ensures { result ≡ with_edge c crossing }
{
    match crossing {
        Crossing::None => c,
        Crossing::Up => Counts {
            ups: c.ups + 1,
            ..c
        },
        Crossing::Down => Counts {
            downs: c.downs + 1,
            ..c
        },
    }
}

// All edges, from the last to the first.
fn counted(corners: &[f64], n: usize, p: Point) -> Counts
    requires { Zoned corners.now n × Accepted p }
    ensures { result ≡ counts_of (edges_of (corners_of corners.now)) (spot_of p) }
{
    let mut c = Counts { ups: 0, downs: 0 };
    let mut to = corner_at(corners, 0);
    for k in (0..n).rev() {
        let from = corner_at(corners, k);
        c = with_edge(c, crosses(from, to, p));
        to = from;
    }
    c
}

// The place of an accepted point: the walk ends at the first edge that it is on, or goes on to the count.
fn place(corners: &[f64], n: usize, p: Point) -> Place
    requires { Zoned corners.now n × Accepted p }
    ensures { place_said result ≡ place_in corners.now p }
{
    // The edge's number comes by `break`, as the paper has the walk end.
    let edge = 'walk: {
        for k in 0..n {
            if meets(corner_at(corners, k), corner_at(corners, next_of(n, k)), p) {
                break 'walk Some(k);
            }
        }
        None
    };
    if let Some(k) = edge {
        return Place::Border(k);
    }
    let c = counted(corners, n, p);
    // The total is ups less downs: it is 0 where they are equal.
    if c.ups != c.downs {
        Place::Inside
    } else {
        Place::Outside
    }
}

// Refusal 3 at the first corner's coordinate that is not accepted, from place 2.
fn corners_accepted(corners: &[f64]) -> Result<(), Refusal>
    requires { length corners.now ≤ 2 * most }
    ensures { outcome (λ u. u) result ≡ accepting_from 2 corners.now tt }
{
    for (i, &x) in corners.iter().enumerate() {
        if !accepted(x) {
            return refused(Kind::NotAccepted, i + 2);
        }
    }
    Ok(())
}

// Whether p is outside the zone, on its border or inside.
pub fn zone(corners: &[f64], p: Point) -> Result<Place, Refusal>
    ensures { ZoneSays corners.now p result }
{
    if corners.len() % 2 == 1 {
        return refused(Kind::OddLength, 0);
    }
    let n = corners.len() / 2;
    if n < FEWEST {
        return refused(Kind::TooFewCorners, 0);
    }
    if MOST < n {
        return refused(Kind::TooMany, 0);
    }
    // Not by one call, with which a zone of 64 corners takes 2.5 % more instructions.
    if !accepted(p.x) {
        return refused(Kind::NotAccepted, 0);
    }
    if !accepted(p.y) {
        return refused(Kind::NotAccepted, 1);
    }
    corners_accepted(corners)?;
    Ok(place(corners, n, p))
}
