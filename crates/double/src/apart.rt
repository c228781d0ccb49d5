// Taking a double apart, by the three fields of its bit pattern.
ghost use Rattle.double.specs.Apart.{TakenSays};

use crate::answer::Parts;
use crate::pattern::{FIELD, SIGN};
use refusal::{Kind, Refusal, refused};

// The parts of x, or refusal 2 where x is infinite or not a number.
#[tactic(auto, using(crate::proofs::Laws::Apart::parting), unfolding(crate::specs::Apart::said))]
pub fn take_apart(x: f64) -> Result<Parts, Refusal>
    ensures { TakenSays x result }
{
    if !x.is_finite() {
        return refused(Kind::NotFinite, 0);
    }
    let pattern = x.to_bits();
    let field = pattern % SIGN / FIELD;
    let digits = pattern % FIELD;
    let negative = SIGN <= pattern;
    // Field 0 has no hidden bit, and counts as field 1.
    if field == 0 {
        return Ok(Parts {
            negative,
            significand: digits,
            exponent: 0,
        });
    }
    Ok(Parts {
        negative,
        significand: FIELD + digits,
        exponent: (field - 1) as u32,
    })
}
