// Numbers of a track file: unsigned 64-bit, in groups of seven bits, the lowest first, in shortest form.
ghost use Rattle.std.specs.Prelude.{◌≡◌, cond, eqb};
ghost use Rattle.refusal.specs.Outcome.{answers, refuses, not_shortest, kind_number};
ghost use Rattle.number.specs.Number.{heard, NumberSays, LengthSays};

use crate::answer::Number;
use refusal::{Kind, Refusal, refused};

// A byte with its top bit set is followed by another of its number.
pub const TOP: u64 = 128;

// Bits of a group.
const GROUP: u32 = 7;

// Groups of seven bits before the one bit that is left of 64.
const FULL: usize = 9;

// By its tenth byte: a number below 2^64 has a 1 there.
fn tenth(b: u8, value: u64, next: usize, start: usize) -> Result<Number, Refusal>
    ensures { heard result ≡ cond (eqb b 1) (answers (record { value = value; next = next })) (refuses not_shortest start) }
{
    if b == 1 {
        Ok(Number { value, next })
    } else {
        refused(Kind::NotShortest, start)
    }
}

// The number that begins at `start`. Refused there: 6 where the bytes end before it does, 7 where its form is not the shortest or it is not
// below 2^64.
pub fn number_at(bytes: &[u8], start: usize) -> Result<Number, Refusal>
    ensures { NumberSays bytes.now start result }
{
    let Some(rest) = bytes.get(start..) else {
        return refused(Kind::EndsEarly, start);
    };
    let mut value: u64 = 0;
    let mut weight: u64 = 1;
    for (turn, byte) in rest.iter().enumerate() {
        let next = start + turn + 1;
        if turn == FULL {
            return tenth(*byte, value + weight, next, start);
        }
        let b = u64::from(*byte);
        if b < TOP {
            // A last group of 0 is the shortest form of 0 only.
            if b == 0 && 0 < turn {
                return refused(Kind::NotShortest, start);
            }
            return Ok(Number {
                value: value + b * weight,
                next,
            });
        }
        value += (b - TOP) * weight;
        weight *= TOP;
    }
    refused(Kind::EndsEarly, start)
}

// How many bytes a number takes.
pub fn number_len(value: u64) -> usize
    ensures { LengthSays value result }
{
    (value.max(1).ilog2() / GROUP + 1) as usize
}
