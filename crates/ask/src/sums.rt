// The answers of `sum`.
use crate::fault::Fault;
use crate::out::Out;
use crate::word::Word;
use std::io::{Eprint, Print};
use sum::answer::Sign;

impl From<Sign> for Word {
    fn from(sign: Sign) -> Word {
        match sign {
            Sign::Minus => Word::Minus,
            Sign::Zero => Word::Zero,
            Sign::Plus => Word::Plus,
        }
    }
}

// run BUDGET D ..: the sign or undecided, the steps, and the list as it stands after.
pub fn run<R: Print + Eprint>(
    list: &mut [f64],
    budget: u32,
    out: &mut Out<R>,
) -> Result<(), Fault> {
    let ran = sum::run(list, budget)?;
    out.put_first(Word::Run)?;
    out.put_word(ran.verdict.map_or(Word::Undecided, Word::from))?;
    out.put_number(ran.steps as u64)?;
    Ok(out.put_doubles(list)?)
}

// ceiling D ..
pub fn ceiling<R: Print + Eprint>(list: &[f64], out: &mut Out<R>) -> Result<(), Fault> {
    let steps = sum::ceiling(list)?;
    out.put_first(Word::Ceiling)?;
    Ok(out.put_number(steps as u64)?)
}

// plain D ..
pub fn plain<R: Print + Eprint>(list: &[f64], out: &mut Out<R>) -> Result<(), Fault> {
    let sign = sum::plain(list)?;
    out.put_first(Word::Plain)?;
    Ok(out.put_word(sign.into())?)
}
