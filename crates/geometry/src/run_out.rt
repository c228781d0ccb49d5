// The sum rule by a run to its end: what stage 3 of a side and a plane have in common.
ghost use Rattle.std.specs.Prelude.{◌≡◌, ◌≤◌, length};
ghost use Rattle.sum.specs.Limit.{limit};
ghost use Rattle.sum.specs.Run.{run_of, most_budget};
ghost use Rattle.sum.proofs.Laws.Entries.{AllReal};
ghost use Rattle.geometry.specs.Plane.{counted_by, signed_said};

use crate::answer::Signed;

// Summands are finite, so that the run is not refused; and the greatest budget is enough, so that it decides.
pub fn run_out(list: &mut [f64]) -> Signed
    requires { AllReal list.old × (length list.old ≤ limit) }
    ensures { signed_said result ≡ counted_by (run_of list.old most_budget) }
{
    let ran = sum::run(list, u32::MAX).unwrap();
    Signed {
        sign: ran.verdict.unwrap(),
        steps: ran.steps,
    }
}
