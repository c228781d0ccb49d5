// Every answer of this crate. The zones of a plan count from 0.

ghost use Rattle.crease.specs.Plan.{FromSays};

use refusal::Refusal;

// Two zones, the lower one first.
#[derive(Clone, Copy)]
pub struct Pair {
    pub first: usize,
    pub second: usize,
}

// Whose a release is.
#[derive(Clone, Copy)]
pub enum Claim {
    // On the border of this zone, and of no lower one.
    Border(usize),
    // On no border, and inside no zone.
    None,
    // On no border, and inside this zone alone.
    Alone(usize),
    // On no border, inside these two, and inside no other below the second.
    Shared(Pair),
}

// A refusal with the number of the zone that it is about, 0 where it is about none.
#[derive(Clone, Copy)]
pub struct ZoneRefusal {
    pub refusal: Refusal,
    pub zone: usize,
}

// A refusal that is about no zone.
impl From<Refusal> for ZoneRefusal {
    ghost from_gives = { FromSays };

    fn from(refusal: Refusal) -> ZoneRefusal {
        ZoneRefusal { refusal, zone: 0 }
    }
}
