// The side of accepted points, by the first stage that tells it.
ghost use Rattle.std.specs.Prelude.{◌≡◌};
ghost use Rattle.point.specs.Accepted.{Accepted};
ghost use Rattle.sum.specs.Total.{sign_number};
ghost use Rattle.geometry.specs.Side.{turned, exact_of, turn_of, turn_said};

use crate::answer::Turn;
use crate::product::summands;
use crate::run_out::run_out;
use point::Point;
use side_filter::answer::Early;
use side_filter::filtered;
use sum::answer::Sign;

// Stage 3: the sum rule on the twelve summands.
fn exact(p: Point, q: Point, r: Point) -> Turn
    requires { Accepted p × Accepted q × Accepted r }
    ensures { turn_said result ≡ exact_of p q r }
{
    let mut pairs = summands(p, q, r);
    let told = run_out(pairs.as_flattened_mut());
    Turn {
        sign: told.sign,
        stage: 3,
        steps: told.steps,
    }
}

// Stages 1 and 2: no step.
fn at_once(s: Sign, stage: u32) -> Turn
    ensures { turn_said result ≡ turned (sign_number s) stage 0 }
{
    Turn {
        sign: s,
        stage,
        steps: 0,
    }
}

// The side of r against the line from p to q.
pub fn turn(p: Point, q: Point, r: Point) -> Turn
    requires { Accepted p × Accepted q × Accepted r }
    ensures { turn_said result ≡ turn_of p q r }
{
    match filtered(p, q, r) {
        Early::Level => at_once(Sign::Zero, 1),
        Early::Plus => at_once(Sign::Plus, 2),
        Early::Minus => at_once(Sign::Minus, 2),
        Early::Open => exact(p, q, r),
    }
}
