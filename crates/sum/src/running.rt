// A run: looks and steps, as far as a budget goes.
ghost use Rattle.sum.specs.Refused.{Accepted};
ghost use Rattle.sum.specs.Run.{RunSays};
ghost use Rattle.sum.specs.Parts.{RanSays};

use crate::answer::Ran;
use crate::fault::first_fault;
use crate::look::{judged, look_at, tallied};
use crate::stepping::step;
use refusal::Refusal;

// The run on a list that is not refused.
fn run_on(list: &mut [f64], budget: u32) -> Ran
    requires { Accepted list.old }
    ensures { RanSays list.old budget result list.new }
{
    let mut steps: u32 = 0;
    // Slower by a `for` over the budget: the look behind it is a second copy of the pass, and costs each call eight instructions.
    loop {
        let t = tallied(list);
        let v = judged(look_at(t), t.m, t.n);
        let None = v else {
            return Ran { verdict: v, steps };
        };
        if budget <= steps {
            return Ran { verdict: v, steps };
        }
        step(list, t);
        steps += 1;
    }
}

// Looks at the list, and steps while it is undecided and fewer than `budget` steps are taken. The list then holds the state after the
// steps that the answer counts.
pub fn run(list: &mut [f64], budget: u32) -> Result<Ran, Refusal>
    ensures { RunSays list.old budget result list.new }
{
    first_fault(list)?;
    Ok(run_on(list, budget))
}
