// On which side of a plane a ball is, for all doubles.
ghost use Rattle.std.specs.Prelude.{◌≡◌};
ghost use Rattle.point.specs.High.{HighAccepted};
ghost use Rattle.geometry.specs.Plane.{summed_of, signed_said, PlaneSays};

use crate::answer::Signed;
use crate::opening::open_all;
use crate::run_out::run_out;
use point::{HighPoint, all_accepted_high};
use refusal::Refusal;

// The sum rule on the 96 summands.
fn summed(p: HighPoint, q: HighPoint, r: HighPoint, s: HighPoint) -> Signed
    requires { HighAccepted p × HighAccepted q × HighAccepted r × HighAccepted s }
    ensures { signed_said result ≡ summed_of p q r s }
{
    let mut rows = open_all(p, q, r, s);
    run_out(
        rows.as_flattened_mut()
            .as_flattened_mut()
            .as_flattened_mut(),
    )
}

// On which side of the plane through p, q and r the ball s is, or refusal 3 at the first coordinate that is not accepted.
// The tactics are there for what a side's are.
#[tactic(auto, unfolding(crate::specs::Plane::plane_said, crate::specs::Plane::plane_of, refusal::specs::Search::passing_from))]
pub fn plane(p: HighPoint, q: HighPoint, r: HighPoint, s: HighPoint) -> Result<Signed, Refusal>
    ensures { PlaneSays p q r s result }
{
    all_accepted_high(&[
        p.x, p.y, p.height, q.x, q.y, q.height, r.x, r.y, r.height, s.x, s.y, s.height,
    ])?;
    Ok(summed(p, q, r, s))
}
