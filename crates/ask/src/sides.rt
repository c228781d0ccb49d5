// The answers of `geometry` on sides and zones.
use crate::fault::Fault;
use crate::out::Out;
use crate::word::Word;
use geometry::answer::Place;
use point::Point;
use std::io::{Eprint, Print};

pub fn point(coordinates: &[f64; 2]) -> Point {
    let [x, y] = *coordinates;
    Point { x, y }
}

// side D D D D D D: sign, stage and steps.
pub fn side<R: Print + Eprint>(list: &[f64], out: &mut Out<R>) -> Result<(), Fault> {
    let ([p, q, r], []) = list.as_chunks() else {
        return Err(Fault::Unclear);
    };
    let turn = geometry::side(point(p), point(q), point(r))?;
    out.put_first(Word::Side)?;
    out.put_word(turn.sign.into())?;
    out.put_number(turn.stage as u64)?;
    Ok(out.put_number(turn.steps as u64)?)
}

// zone D D D ..: the point, then the corners' doubles.
pub fn zone<R: Print + Eprint>(list: &[f64], out: &mut Out<R>) -> Result<(), Fault> {
    let (p, corners) = list.split_first_chunk().ok_or(Fault::Unclear)?;
    let place = geometry::zone(corners, point(p))?;
    out.put_first(Word::Zone)?;
    match place {
        Place::Outside => out.put_word(Word::Outside)?,
        Place::Inside => out.put_word(Word::Inside)?,
        Place::Border(k) => out.put_named(Word::Border, k as u64)?,
    }
    Ok(())
}
