// The codes of places.
ghost use Rattle.std.specs.Prelude.{◌≡◌, ◌*◌, length};
ghost use Rattle.point.specs.Accepted.{Accepted};
ghost use Rattle.geometry.specs.Zone.{place_said, points_of};
ghost use Rattle.ground.specs.Zone.{place_number};
ghost use Rattle.track.specs.Write.{AllAccepted};
ghost use Rattle.report.specs.Report.{code_of, codes_of};
ghost use Rattle.report.specs.Parts.{IsZone};

use geometry::answer::Place;
use point::Point;

// The codes are bytes, as they stand in the bytes that are lent to `report`.
const OUTSIDE: u8 = 0;

const BORDER: u8 = 1;

const INSIDE: u8 = 2;

fn code(place: Place) -> u8
    ensures { result ≡ place_number (place_said place) }
{
    match place {
        Place::Outside => OUTSIDE,
        Place::Border(_) => BORDER,
        Place::Inside => INSIDE,
    }
}

// The code of a release. A judged zone refuses no accepted point.
fn code_at(corners: &[f64], p: Point) -> u8
    requires { IsZone corners.now × Accepted p }
    ensures { result ≡ code_of corners.now p }
{
    code(geometry::zone(corners, p).unwrap())
}

// Writes the code of each release of a list x, y, x, y ..
pub fn put_codes(corners: &[f64], releases: &[f64], codes: &mut [u8])
    requires { IsZone corners.now × AllAccepted releases.now × (length releases.now ≡ 2 * length codes.old) }
    ensures { codes.new ≡ codes_of corners.now (points_of releases.now) }
{
    // No `zip` with the releases: a proof knows no entry that is written through one.
    for (i, code) in codes.iter_mut().enumerate() {
        let p = Point {
            x: releases[2 * i],
            y: releases[2 * i + 1],
        };
        *code = code_at(corners, p);
    }
}
