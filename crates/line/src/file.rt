// The bytes of a file: two digits for each.
ghost use Rattle.std.specs.Prelude.{◌≡◌, true};
ghost use Rattle.line.specs.Next.{reading_of, file_of};

use crate::answer::{Asked, Found, Line, Reading, Step};
use crate::digit::digit_of;

// One digit more: the second of a byte has it found.
#[tactic(auto, using(crate::proofs::Laws::Digit::digit_small))]
pub fn reading(f: Reading, b: u8) -> Step<Line>
    ensures { result ≡ reading_of f b }
{
    let Some(d) = digit_of(b) else {
        return Step::only(Line::Unclear);
    };
    match f.half {
        None => Step::only(read(f.room, Some(d))),
        Some(first) => Step {
            to: read(f.room, None),
            found: Some(Found::Byte(16 * (first % 16) + d)),
        },
    }
}

fn read(room: u32, half: Option<u8>) -> Line
    ensures { result ≡ Line.Reading (record { room = room; some = true; half = half }) }
{
    Line::Reading(Reading {
        room,
        some: true,
        half,
    })
}

// The bytes are whole: at least one, and no digit is left.
pub fn filed(f: Reading) -> Asked
    ensures { result ≡ file_of f }
{
    if f.some && f.half.is_none() {
        Asked::OfFile(f.room)
    } else {
        Asked::Unclear
    }
}
