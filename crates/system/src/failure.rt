// What is told of a read or a write that failed.
use std::io::{Cursor, Eprint, Error, Write};
use std::str;

// Tells on standard error what failed, and the system's words for why.
pub fn tell<R: Eprint>(rt: &R, what: &str, error: &Error) {
    let mut room = Cursor::new([0u8; 256]);
    let _ = write!(room, "{error}");
    let said = room
        .get_ref()
        .get(..room.position() as usize)
        .unwrap_or(b"");
    let why = words(str::from_utf8(said).unwrap_or(""));
    let _ = eprintln!(rt; "{what}: {why}");
}

// An error's words alone: std puts the system's number behind them.
fn words(said: &str) -> &str {
    said.rsplit_once(" (os error ")
        .map_or(said, |(words, _)| words)
}
