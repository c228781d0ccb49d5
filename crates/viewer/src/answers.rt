// The number that an entry answers.
ghost use Rattle.std.specs.Prelude.{◌≡◌, ◌+◌, ◌≤◌};
ghost use Rattle.sum.specs.Total.{sign_number};
ghost use Rattle.geometry.specs.Zone.{place_said};
ghost use Rattle.ground.specs.Zone.{place_number};
ghost use Rattle.refusal.specs.Outcome.{kind_number};
ghost use Rattle.viewer.specs.Entries.{sign_answer, base};

use geometry::answer::Place;
use refusal::Kind;
use sum::answer::Sign;

// What a refusal's number is added to.
const BASE: u32 = 100;

// 0, 1, 2 for -1, 0, +1.
#[tactic(auto, unfolding(crate::specs::Entries::sign_answer))]
pub fn sign_answer(s: Sign) -> u32
    ensures { result ≡ sign_answer (sign_number s) }
{
    match s {
        Sign::Minus => 0,
        Sign::Zero => 1,
        Sign::Plus => 2,
    }
}

// 0, 1, 2 for outside, border, inside.
#[tactic(auto, unfolding(geometry::specs::Zone::place_said))]
pub fn place_answer(place: Place) -> u32
    ensures { result ≡ place_number (place_said place) }
{
    match place {
        Place::Outside => 0,
        Place::Border(_) => 1,
        Place::Inside => 2,
    }
}

// 100 plus the number of a refusal, of which the table has nine.
pub fn refusal_answer(kind: Kind) -> u32
    ensures { result ≡ base + kind_number kind }
{
    BASE + kind.number()
}
