// The bytes of a file.
ghost use Rattle.std.specs.Prelude.{◌≤◌, length};
ghost use Rattle.system.specs.Moved.{HoldsStart, IsWithin};

use crate::read;
use std::fs;
use std::fs::Files;
use std::io::Read;

// Reads the file of this name until it ends or the buffer is full, and answers how many bytes then stand at the buffer's start; none where it
// can't be opened, or reading failed half-way.
pub fn bytes_of<R: Files>(rt: &R, name: &str, buf: &mut [u8]) -> Option<usize>
    ensures { IsWithin result buf.new }
{
    filled(&mut fs::open(rt, name).ok()?, buf)
}

// Reads until the reader ends or the buffer is full, and answers how many bytes then stand at the buffer's start; none where reading failed.
// (Not the part of the buffer: of a buffer that is borrowed from, no clause can say what is left in it.)
pub fn filled<F: Read>(file: &mut F, buf: &mut [u8]) -> Option<usize>
    ensures { HoldsStart (F.remaining file.old) (F.remaining file.new) result buf.new }
{
    let mut n = 0;
    // how many reads it takes no one knows beforehand
    while n < buf.len() {
        match read(file, &mut buf[n..]) {
            Ok(0) => break,
            Ok(k) => n += k,
            Err(_) => return None,
        }
    }
    Some(n)
}
