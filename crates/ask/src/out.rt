// The answers on their way out.
ghost use Rattle.std.specs.Prelude.{◌≡◌, ◌≤◌, OnOk};

use crate::word::Word;
use std::io::{Eprint, Print};
use word64::magnitude;

// A read or a write failed, which is told on standard error: nothing is put or written any more.
#[derive(Clone, Copy)]
pub struct Failed;

// The bytes that are not written yet are the first `len` of the buffer.
#[derive(Drop)]
pub struct Out<'a, R> {
    pub rt: &'a R,
    pub buffer: [u8; 65536],
    pub len: usize,
    ghost within: { len ≤ 65536 },
}

impl<'a, R: Print + Eprint> Out<'a, R> {
    pub fn new(rt: &'a R) -> Out<'a, R> {
        Out {
            rt,
            buffer: io::large_buffer(),
            len: 0,
        }
    }

    // Writes what waits.
    pub fn flush(&mut self) -> Result<(), Failed>
        ensures { OnOk result (self.new.len ≡ 0) }
    {
        if !system::write(self.rt, &self.buffer[..self.len]) {
            return Err(Failed);
        }
        self.len = 0;
        Ok(())
    }

    // One byte more; what waits is written first where it leaves no room.
    pub fn put(&mut self, b: u8) -> Result<(), Failed> {
        if self.len == self.buffer.len() {
            self.flush()?;
        }
        self.buffer[self.len] = b;
        self.len += 1;
        Ok(())
    }

    // The word that an answer begins with.
    pub fn put_first(&mut self, word: Word) -> Result<(), Failed> {
        self.put_text(word.text())
    }

    fn put_text(&mut self, text: &[u8]) -> Result<(), Failed> {
        for b in text {
            self.put(*b)?;
        }
        Ok(())
    }

    // A word after a space.
    pub fn put_word(&mut self, word: Word) -> Result<(), Failed> {
        self.put(b' ')?;
        self.put_text(word.text())
    }

    // A word, and the number that it is of.
    pub fn put_named(&mut self, word: Word, n: u64) -> Result<(), Failed> {
        self.put_word(word)?;
        self.put_number(n)
    }

    // A number in decimal, after a space.
    pub fn put_number(&mut self, n: u64) -> Result<(), Failed> {
        self.put(b' ')?;
        self.put_decimal(n)
    }

    // The same, with a minus sign where it is below 0.
    pub fn put_signed(&mut self, n: i64) -> Result<(), Failed> {
        self.put(b' ')?;
        if n < 0 {
            self.put(b'-')?;
        }
        self.put_decimal(magnitude(n))
    }

    fn put_decimal(&mut self, n: u64) -> Result<(), Failed> {
        let mut digits = [0u8; 20];
        let k = io::decimal(n, &mut digits);
        self.put_text(&digits[..k])
    }

    // A number in hexadecimal.
    fn put_hex(&mut self, n: u64, places: usize) -> Result<(), Failed> {
        let mut digits = [0u8; 16];
        let k = io::hex(n, places, &mut digits);
        self.put_text(&digits[..k])
    }

    // A list of doubles, each as its 16 hexadecimal digits after a space.
    pub fn put_doubles(&mut self, list: &[f64]) -> Result<(), Failed> {
        for x in list {
            self.put(b' ')?;
            self.put_hex(double::to_pattern(*x), 16)?;
        }
        Ok(())
    }

    // Bytes as two hexadecimal digits each, after one space.
    pub fn put_bytes(&mut self, bytes: &[u8]) -> Result<(), Failed> {
        if bytes.is_empty() {
            return Ok(());
        }
        self.put(b' ')?;
        for b in bytes {
            self.put_hex(*b as u64, 2)?;
        }
        Ok(())
    }

    // Edges that count, each with its turn.
    pub fn put_entries(&mut self, entries: &[u8]) -> Result<(), Failed> {
        for entry in entries {
            self.put_number((*entry / 2) as u64)?;
            let turn = if *entry % 2 == 0 {
                Word::Up
            } else {
                Word::Down
            };
            self.put_word(turn)?;
        }
        Ok(())
    }
}
