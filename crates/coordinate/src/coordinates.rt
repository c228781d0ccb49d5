// One coordinate of a track file: the leaf of every reading of tracks.
ghost use Rattle.std.specs.Prelude.{◌≡◌};
ghost use Rattle.coordinate.specs.Coordinate.{heard, judged_of, CoordinateSays};

use crate::answer::Coordinate;
use crate::difference::{SIGN, restored};
use number::number_at;
use refusal::{Kind, Refusal, refused};

// Above it, without the sign, stand the patterns of the NaNs.
const INFINITE: u64 = 0x7FF0_0000_0000_0000;

// The coordinate of a pattern whose number begins at `start` and ends before `next`.
#[tactic(auto, using(crate::proofs::Laws::Coordinate::judging))]
fn judged(pattern: u64, start: usize, next: usize) -> Result<Coordinate, Refusal>
    ensures { heard result ≡ judged_of pattern start next }
{
    if pattern % SIGN <= INFINITE {
        let value = f64::from_bits(pattern);
        if point::accepted(value) {
            return Ok(Coordinate {
                value,
                pattern,
                next,
            });
        }
    }
    refused(Kind::NotAccepted, start)
}

// The coordinate whose number begins at `start`, after the pattern `before` of its axis. Refused there: 6 or 7 as the number is, 3 where
// the coordinate is not accepted.
pub fn coordinate_at(bytes: &[u8], start: usize, before: u64) -> Result<Coordinate, Refusal>
    ensures { CoordinateSays bytes.now start before result }
{
    let n = number_at(bytes, start)?;
    judged(restored(n.value, before), start, n.next)
}
