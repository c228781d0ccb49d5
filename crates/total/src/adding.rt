// One double more in a total.
ghost use Rattle.total.specs.Add.{AddSays};

use crate::words::{WORDS, put};
use double::take_apart;

// Adds x to a total of 33 words, unless x is infinite or not a number: whether it did.
pub fn add(total: &mut [u64], x: f64) -> bool
    ensures { AddSays total.old x result total.new }
{
    if total.len() != WORDS {
        return false;
    }
    let Ok(p) = take_apart(x) else {
        return false;
    };
    put(total, p);
    true
}
