// The answers of `double`.
use crate::fault::Fault;
use crate::out::Out;
use crate::word::Word;
use std::io::{Eprint, Print};

// apart D: sign bit, significand and exponent.
pub fn apart<R: Print + Eprint>(list: &[f64], out: &mut Out<R>) -> Result<(), Fault> {
    let [x] = *list else {
        return Err(Fault::Unclear);
    };
    let parts = double::take_apart(x)?;
    out.put_first(Word::Apart)?;
    out.put_number(parts.negative as u64)?;
    out.put_number(parts.significand)?;
    Ok(out.put_number(parts.exponent as u64)?)
}
