// Why a point has its place, for all doubles.
ghost use Rattle.std.specs.Prelude.{◌≡◌, ◌/◌, ◌<◌, length};
ghost use Rattle.ground.specs.Reason.{is_corner};
ghost use Rattle.point.specs.Spot.{spot_of};
ghost use Rattle.geometry.specs.Zone.{place_in, place_said, edge_at};
ghost use Rattle.reason.specs.Why.{WhySays};
ghost use Rattle.reason.specs.Parts.{IsZone, Held, CountedSays};

use crate::answer::{Counted, Met, Why};
use crate::listing::{ends_at, list};
use geometry::answer::Place;
use point::Point;
use refusal::{Kind, Refusal, refused};
use word64::signed_difference;

// The edges that count, handed over at the start of the lent room, if they fit.
fn counted(corners: &[f64], p: Point, room: &mut [u8]) -> Result<Counted, Refusal>
    requires { IsZone corners.now × Held p }
    ensures { CountedSays corners.now p room.old result room.new }
{
    let listed = list(corners, p);
    let entries = listed.entries();
    let n = entries.len();
    if room.len() < n {
        return refused(Kind::NoRoom, 0);
    }
    room[..n].copy_from_slice(entries);
    Ok(Counted {
        total: signed_difference(listed.ups as u64, listed.downs as u64),
        entries: n,
    })
}

fn met(corners: &[f64], p: Point, k: usize) -> Met
    requires { IsZone corners.now × Held p × (k < length corners.now / 2) }
    ensures { result ≡ record { edge = k; corner = is_corner (edge_at corners.now k) (spot_of p) } }
{
    Met {
        edge: k,
        corner: ends_at(corners, k).has_corner(p),
    }
}

// The reason of a place that the zone test gave.
fn placed(corners: &[f64], p: Point, place: Place, room: &mut [u8]) -> Result<Why, Refusal>
    requires { IsZone corners.now × Held p × (place_said place ≡ place_in corners.now p) }
    ensures { WhySays corners.now p room.old result room.new }
{
    match place {
        Place::Border(k) => Ok(Why::Border(met(corners, p, k))),
        Place::Inside => Ok(Why::Inside(counted(corners, p, room)?)),
        Place::Outside => Ok(Why::Outside(counted(corners, p, room)?)),
    }
}

// Why p has its place in the zone: the zone test's place, with the edge that has p, or with the total and the edges that count, whose entries stand
// at the start of the lent room. Refused as the zone is, then with 9 where the room is shorter than the entries. A refusal writes nothing.
pub fn why(corners: &[f64], p: Point, room: &mut [u8]) -> Result<Why, Refusal>
    ensures { WhySays corners.now p room.old result room.new }
{
    placed(corners, p, geometry::zone(corners, p)?, room)
}
