// What a plan's zones claim so far, with one zone more.
ghost use Rattle.std.specs.Prelude.{◌≡◌};
ghost use Rattle.geometry.specs.Zone.{place_said};
ghost use Rattle.crease.specs.Parts.{with_border, with_inside, with_zone};

use crate::answer::{Claim, Pair};
use geometry::answer::Place;

// The first border stays.
fn with_border(claim: Claim, k: usize) -> Claim
    ensures { result ≡ with_border claim k }
{
    match claim {
        Claim::Border(_) => claim,
        Claim::None | Claim::Alone(_) | Claim::Shared(_) => Claim::Border(k),
    }
}

// A third zone changes nothing, and a border is not left.
fn with_inside(claim: Claim, k: usize) -> Claim
    ensures { result ≡ with_inside claim k }
{
    match claim {
        Claim::None => Claim::Alone(k),
        Claim::Alone(first) => Claim::Shared(Pair { first, second: k }),
        Claim::Border(_) | Claim::Shared(_) => claim,
    }
}

// The claim of the zones below k, with zone k at this place.
#[tactic(auto, unfolding(geometry::specs::Zone::place_said))]
pub fn with_zone(claim: Claim, k: usize, place: Place) -> Claim
    ensures { result ≡ with_zone claim k (place_said place) }
{
    match place {
        Place::Outside => claim,
        Place::Border(_) => with_border(claim, k),
        Place::Inside => with_inside(claim, k),
    }
}
