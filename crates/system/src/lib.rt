// The system's reads and writes, for all programs.
#![tactic(auto)]

pub mod failure;
pub mod files;

ghost use Rattle.std.specs.Prelude.{◌≡◌, ◌<◌, ◌≤◌, length, take, IfOk, OnOk, OnErr};
ghost use Rattle.std.specs.Io.{ReadsAtMost, WritesAtMost};
ghost use Rattle.std.specs.Io.KnownBytes.{Appends, ReadConsumes, WriteAppends};
ghost use Rattle.system.specs.Moved.{AppendsStart};

use std::io;
use std::io::{Eprint, Error, ErrorKind, Print, Read, Write};

// Writes the whole text to standard output, and answers whether it did. An interrupted or a short write is gone on with. One that fails or takes
// nothing is told on standard error: then nothing more may be written, or it would stand behind a gap.
pub fn write<R: Print + Eprint>(rt: &R, text: &[u8]) -> bool {
    match write_to(&mut io::writer(rt), text) {
        Ok(()) => true,
        Err(error) => {
            failure::tell(rt, "output", &error);
            false
        }
    }
}

// The same to any writer. Where it fails, a start of the text is written, and nothing behind it.
pub fn write_to<W: Write>(out: &mut W, text: &[u8]) -> io::Result<()>
    ensures all { OnOk result (Appends (W.contents out.old) (W.contents out.new) text.now) }
    ensures start { OnErr result (AppendsStart (W.contents out.old) (W.contents out.new) text.now) }
{
    let mut rest = text;
    // No `for`: how much a write takes is not known before it.
    while !rest.is_empty() {
        let k = taken(out, rest)?;
        if k == 0 {
            return Err(Error::from(ErrorKind::WriteZero));
        }
        rest = &rest[k..];
    }
    Ok(())
}

// One write; an interrupted one is tried again. (The count of turns, which no text reaches, is why this ends.)
fn taken<W: Write>(out: &mut W, text: &[u8]) -> io::Result<usize>
    ensures bound { WritesAtMost result text.now }
    ensures bytes { WriteAppends (W.contents out.old) (W.contents out.new) result text.now }
{
    for _ in 0..u64::MAX {
        match out.write(text) {
            Err(error) if error.kind() == ErrorKind::Interrupted => {}
            put => return put,
        }
    }
    Err(Error::from(ErrorKind::Interrupted))
}

// One read; an interrupted one is tried again. (Not one loop with `taken`, by a closure: no clause could say which bytes a closure moved.)
pub fn read<R: Read>(from: &mut R, buf: &mut [u8]) -> io::Result<usize>
    ensures bound { ReadsAtMost result buf.new }
    ensures bytes { ReadConsumes (R.remaining from.old) (R.remaining from.new) result buf.new }
{
    for _ in 0..u64::MAX {
        match from.read(buf) {
            Err(error) if error.kind() == ErrorKind::Interrupted => {}
            got => return got,
        }
    }
    Err(Error::from(ErrorKind::Interrupted))
}
