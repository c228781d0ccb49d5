// The zone, judged from the bytes of its file, before and without the releases.
ghost use Rattle.std.specs.Prelude.{◌≡◌};
ghost use Rattle.report.specs.Zone.{JudgeSays};
ghost use Rattle.report.specs.Parts.{JudgedHeld};

use geometry::limit::{FEWEST, MOST};
use refusal::{Kind, Refusal, refused};
use track::limit::COORDINATES;

// Judges a zone, whose corners then stand at the start of a list. (What a refused zone leaves there is not said.)
pub fn judged(zone: &[u8], held: &mut [f64; COORDINATES]) -> Result<usize, Refusal>
    ensures { JudgedHeld zone.now result held.new }
{
    let n = track::read(zone, held)?;
    if n < FEWEST {
        return refused(Kind::TooFewCorners, 0);
    }
    if MOST < n {
        return refused(Kind::TooMany, 0);
    }
    Ok(n)
}

// How many corners the zone has. In order: the reader's refusal of the file, then 4, then 1.
pub fn judge(zone: &[u8]) -> Result<usize, Refusal>
    ensures { JudgeSays zone.now result }
{
    let mut held = [0.0; COORDINATES];
    judged(zone, &mut held)
}
