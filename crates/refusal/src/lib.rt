// How every public call of the project refuses: docs/RULES.md, sections Refusals and Order.
//
// A call that can refuse answers `Result<_, Refusal>`, and one that refuses writes nothing.
#![tactic(auto)]

ghost use Rattle.refusal.specs.Outcome.{NumberSays, RefusedSays};

// What is refused. Its number is that of the table.
#[derive(Clone, Copy, PartialEq, Eq)]
pub enum Kind {
    // Refusals 1: a sum's list over 1,024, a zone over 64 corners, a plan over 16 zones, a track over 512 points.
    TooMany,
    // Refusals 2: an infinity or a not-a-number, in a sum's list or to be taken apart.
    NotFinite,
    // Refusals 3: a coordinate that is not accepted.
    NotAccepted,
    // Refusals 4: a zone of fewer than 3 corners.
    TooFewCorners,
    // Refusals 5: a list of corners or points of odd length; corners' bytes of the viewer that are no multiple of 16; a plan's list that is not
    // as long as counted.
    OddLength,
    // Refusals 6: a file that ends before a number or inside one.
    EndsEarly,
    // Refusals 7: a number that is not in shortest form, or not below 2^64.
    NotShortest,
    // Refusals 8: bytes behind the last number.
    BytesAfter,
    // Refusals 9: lent space that is too short.
    NoRoom,
}

impl Kind {
    // The number that the table has for it, and that is told.
    pub fn number(self) -> u32
        ensures { NumberSays self result }
    {
        self as u32 + 1
    }
}

// A refusal: its kind, and its place.
#[derive(Clone, Copy, PartialEq, Eq)]
pub struct Refusal {
    pub kind: Kind,
    pub place: usize,
}

// What a call answers that refuses.
pub fn refused<T>(kind: Kind, place: usize) -> Result<T, Refusal>
    ensures { RefusedSays kind place result }
{
    Err(Refusal { kind, place })
}
