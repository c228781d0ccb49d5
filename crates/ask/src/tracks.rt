// The answers of `track`.
use crate::fault::Fault;
use crate::out::Out;
use crate::part::first;
use crate::word::Word;
use std::io::{Eprint, Print};

// write ROOM D ..: the file's length and bytes, with ROOM bytes lent.
pub fn write<R: Print + Eprint>(
    room: u32,
    list: &[f64],
    bytes: &mut [u8],
    out: &mut Out<R>,
) -> Result<(), Fault> {
    let lent = bytes.get_mut(..room as usize).ok_or(Fault::Unclear)?;
    let length = track::write(list, lent)?;
    out.put_first(Word::Write)?;
    out.put_number(length as u64)?;
    Ok(out.put_bytes(first(lent, length))?)
}

// The most doubles that are lent to the reader. (1,024 are enough.)
const ROOM: usize = 1100;

// read ROOM BYTES: how many points, and their coordinates, with ROOM doubles lent.
pub fn read<R: Print + Eprint>(
    room: u32,
    file: &[u8],
    list: &mut [f64],
    out: &mut Out<R>,
) -> Result<(), Fault> {
    let lent = list.get_mut(..room as usize).ok_or(Fault::Unclear)?;
    if ROOM < lent.len() {
        return Err(Fault::Unclear);
    }
    let points = track::read(file, lent)?;
    // No more points are read than have room, so that this never saturates.
    let doubles = points.saturating_mul(2);
    out.put_first(Word::Read)?;
    out.put_number(points as u64)?;
    Ok(out.put_doubles(first(lent, doubles))?)
}
