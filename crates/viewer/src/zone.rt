// The zone, for C.
ghost use Rattle.std.specs.Prelude.{◌≡◌, ◌*◌, length};
ghost use Rattle.geometry.specs.Zone.{most};
ghost use Rattle.viewer.specs.Entries.{ZoneEntrySays};

use crate::answers::{place_answer, refusal_answer};
use crate::bytes::{decode, point_of};
use geometry::limit::{FEWEST, MOST};
use refusal::Kind;

// The bytes of a corner: x, then y.
const CORNER: usize = 16;

// Room for the doubles of the most corners.
const ROOM: usize = 2 * MOST;

// Whether the point is outside the zone, on its border or inside: 0, 1, 2; or 105, 104, 101, 103, the first that fits.
// The length is judged before a corner is read.
pub fn ghomxarin_zone(px: u64, py: u64, corners: &[u8]) -> u32
    ensures { ZoneEntrySays px py corners.now result }
{
    if corners.len() % CORNER != 0 {
        return refusal_answer(Kind::OddLength);
    }
    let n = corners.len() / CORNER;
    if n < FEWEST {
        return refusal_answer(Kind::TooFewCorners);
    }
    if MOST < n {
        return refusal_answer(Kind::TooMany);
    }
    let mut list = [0.0; ROOM];
    decode(corners, &mut list);
    match geometry::zone(&list[..2 * n], point_of(px, py)) {
        Ok(place) => place_answer(place),
        Err(refusal) => refusal_answer(refusal.kind),
    }
}
