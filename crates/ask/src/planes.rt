// The answers of `geometry` on four points with heights.
use crate::fault::Fault;
use crate::out::Out;
use crate::word::Word;
use point::HighPoint;
use std::io::{Eprint, Print};

fn high_point(coordinates: &[f64; 3]) -> HighPoint {
    let [x, y, height] = *coordinates;
    HighPoint { x, y, height }
}

// plane D D D D D D D D D D D D: sign and steps.
pub fn plane<R: Print + Eprint>(list: &[f64], out: &mut Out<R>) -> Result<(), Fault> {
    let ([p, q, r, s], []) = list.as_chunks() else {
        return Err(Fault::Unclear);
    };
    let side = geometry::plane(high_point(p), high_point(q), high_point(r), high_point(s))?;
    out.put_first(Word::Plane)?;
    out.put_word(side.sign.into())?;
    Ok(out.put_number(side.steps as u64)?)
}
