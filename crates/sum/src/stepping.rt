// One step: the two extremes become their rounded sum and its roundoff.
ghost use Rattle.std.specs.Prelude.{◌≡◌};
ghost use Rattle.sum.specs.Step.{step_of};
ghost use Rattle.sum.specs.Parts.{Opposed, ExactSum};
ghost use Rattle.sum.specs.Tally.{Stepping};

use crate::look::Tally;

// Of two doubles of unlike sign, a the larger in magnitude: their rounded sum, and its roundoff. Together they are exactly a and b.
// (Dekker 1971.)
fn exact_sum(a: f64, b: f64) -> (f64, f64)
    requires { Opposed a b }
    ensures { ExactSum a b result.0 result.1 }
{
    let x = a + b;
    let z = x - a;
    let y = b - z;
    (x, y)
}

// The step of an undecided list with the tally t.
#[tactic(auto, using(crate::proofs::Laws::Stepping::at_inside, crate::proofs::Laws::Stepping::bt_inside, crate::proofs::Laws::Stepping::bt_after))]
pub fn step(list: &mut [f64], t: Tally)
    requires { Stepping list.old t }
    ensures { list.new ≡ step_of list.old }
{
    let Tally { a, b, at, bt, .. } = t;
    if -b < a {
        (list[at], list[bt]) = exact_sum(a, b);
    } else if a < -b {
        let (x, y) = exact_sum(b, a);
        (list[at], list[bt]) = (y, x);
    } else {
        (list[at], list[bt]) = (0.0, 0.0);
    }
}
