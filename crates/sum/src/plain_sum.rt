// The plain sum: the sign of the exact total, in whole numbers. The list is only read.
ghost use Rattle.sum.specs.Plain.{PlainSays};

use crate::answer::Sign;
use crate::fault::LIMIT;
use crate::words::sign_of;
use refusal::{Kind, Refusal, refused};
use total::{WORDS, add};

// The sign of the list's total. One pass: the first entry that is not added is the first that is not finite.
pub fn plain(list: &[f64]) -> Result<Sign, Refusal>
    ensures { PlainSays list.now result }
{
    if LIMIT < list.len() {
        return refused(Kind::TooMany, 0);
    }
    let mut words = [0u64; WORDS];
    for (i, x) in list.iter().enumerate() {
        if !add(&mut words, *x) {
            return refused(Kind::NotFinite, i);
        }
    }
    Ok(sign_of(&words))
}
