// Whose a release is, for all doubles and all counts.
ghost use Rattle.std.specs.Prelude.{◌≡◌, ◌*◌, eqb, length};
ghost use Rattle.refusal.specs.Outcome.{outcome};
ghost use Rattle.geometry.specs.Zone.{zone_of};
ghost use Rattle.crease.specs.Plan.{counted_in, zones_of, PlanSays};
ghost use Rattle.crease.specs.Parts.{lists_judged, found, with_next, folded_from};

use crate::answer::{Claim, ZoneRefusal};
use crate::claims::with_zone;
use point::{Point, all_accepted};
use refusal::{Kind, Refusal, refused};

// The most zones of a plan.
const MOST: usize = 16;

// Whether a list has exactly two doubles for each corner counted. Each count is taken from the corners that are left, so that no sum is too large.
fn is_counted(counts: &[usize], doubles: usize) -> bool
    ensures { result ≡ eqb doubles (2 * counted_in counts.now) }
{
    if doubles % 2 == 1 {
        return false;
    }
    let mut left = doubles / 2;
    for &n in counts {
        let Some(less) = left.checked_sub(n) else {
            return false;
        };
        left = less;
    }
    left == 0
}

// Refusal 1 of more than 16 zones, or 5 of a list that is not as long as counted.
fn judged(counts: &[usize], corners: &[f64]) -> Result<(), Refusal>
    ensures { outcome (λ u. u) result ≡ lists_judged counts.now corners.now }
{
    if MOST < counts.len() {
        return refused(Kind::TooMany, 0);
    }
    if !is_counted(counts, corners.len()) {
        return refused(Kind::OddLength, 0);
    }
    Ok(())
}

// The claim with zone k, or its refusal.
fn with_next(claim: Claim, k: usize, corners: &[f64], p: Point) -> Result<Claim, ZoneRefusal>
    ensures { found result ≡ with_next claim k (zone_of corners.now p) }
{
    let place = geometry::zone(corners, p).map_err(|refusal| ZoneRefusal { refusal, zone: k })?;
    Ok(with_zone(claim, k, place))
}

// All zones, from the first to the last or to the first that is refused.
fn folded(counts: &[usize], corners: &[f64], p: Point) -> Result<Claim, ZoneRefusal>
    requires { length corners.now ≡ 2 * counted_in counts.now }
    ensures { found result ≡ folded_from 0 Claim.None (zones_of counts.now corners.now) p }
{
    let mut claim = Claim::None;
    let mut rest = corners;
    for (k, &n) in counts.iter().enumerate() {
        let (zone, others) = rest.split_at(2 * n);
        claim = with_next(claim, k, zone, p)?;
        rest = others;
    }
    Ok(claim)
}

// Whose the release p is, by a plan: the corners of its zones, one zone after the other, and how many each has.
pub fn plan(counts: &[usize], corners: &[f64], p: Point) -> Result<Claim, ZoneRefusal>
    ensures { PlanSays counts.now corners.now p result }
{
    judged(counts, corners)?;
    all_accepted(&[p.x, p.y])?;
    folded(counts, corners, p)
}
