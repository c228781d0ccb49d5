// The answer of `reason`.
use crate::fault::Fault;
use crate::out::{Failed, Out};
use crate::part::first;
use crate::sides::point;
use crate::word::Word;
use reason::answer::{Counted, Met, Why};
use std::io::{Eprint, Print};

// The most entries that are lent. (64 are enough.)
const MOST: usize = 100;

// why ROOM D D D ..: the edge that has the point, or the total and the edges that count, with room for so many.
pub fn why<R: Print + Eprint>(
    room: u32,
    list: &[f64],
    bytes: &mut [u8],
    out: &mut Out<R>,
) -> Result<(), Fault> {
    let lent = bytes.get_mut(..room as usize).ok_or(Fault::Unclear)?;
    let (p, corners) = list.split_first_chunk().ok_or(Fault::Unclear)?;
    if MOST < lent.len() {
        return Err(Fault::Unclear);
    }
    let why = reason::why(corners, point(p), lent)?;
    out.put_first(Word::Why)?;
    match why {
        Why::Border(m) => met(m, out)?,
        Why::Inside(c) => counted(Word::Inside, c, lent, out)?,
        Why::Outside(c) => counted(Word::Outside, c, lent, out)?,
    }
    Ok(())
}

fn met<R: Print + Eprint>(m: Met, out: &mut Out<R>) -> Result<(), Failed> {
    let on = if m.corner {
        Word::Corner
    } else {
        Word::Between
    };
    out.put_named(Word::Border, m.edge as u64)?;
    out.put_word(on)
}

fn counted<R: Print + Eprint>(
    place: Word,
    c: Counted,
    entries: &[u8],
    out: &mut Out<R>,
) -> Result<(), Failed> {
    out.put_word(place)?;
    out.put_signed(c.total)?;
    out.put_entries(first(entries, c.entries))
}
