// The side of a point, for all doubles.
ghost use Rattle.geometry.specs.Side.{SideSays, SignSays};

use crate::answer::Turn;
use crate::turning::turn;
use point::{Point, all_accepted};
use refusal::Refusal;
use sum::answer::Sign;

// The side of r against the line from p to q, or refusal 3 at the first coordinate that is not accepted.
// The tactics prove an exit that has no answer from the rule itself, so that a wrong edit's falls for its place alone.
#[tactic(auto, unfolding(crate::specs::Side::said, crate::specs::Side::side_of, refusal::specs::Search::passing_from))]
pub fn side(p: Point, q: Point, r: Point) -> Result<Turn, Refusal>
    ensures { SideSays p q r result }
{
    all_accepted(&[p.x, p.y, q.x, q.y, r.x, r.y])?;
    Ok(turn(p, q, r))
}

// The sign of the exact determinant alone, with the side's refusals: for callers that need no stage and plan no steps.
pub fn sign(p: Point, q: Point, r: Point) -> Result<Sign, Refusal>
    ensures { SignSays p q r result }
{
    Ok(side(p, q, r)?.sign)
}
