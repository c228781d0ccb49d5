// The line tool: reads questions from standard input, one to a line, and writes one answer line for each, in order, until the input ends.
#![tactic(auto)]

mod answer;
mod fault;
mod held;
mod meetings;
mod numbers;
mod out;
mod part;
mod planes;
mod plans;
mod reasons;
mod sides;
mod sums;
mod tracks;
mod word;

use held::Held;
use line::answer::Line;
use out::{Failed, Out};
use std::io::{Eprint, Print, Read};

// What is left after some bytes of input: the line that they end in, the numbers of it that are held, and the output that waits.
#[derive(Drop)]
struct Tool<'a, R> {
    line: Line,
    held: Held,
    out: Out<'a, R>,
}

impl<'a, R: Print + Eprint> Tool<'a, R> {
    // Reads until the input is over, and writes what each read answers. Where a write fails the run ends; where a read fails too, and a line that was
    // cut off is not answered. (The count of turns, which no input reaches, is why this ends.)
    fn run<F: Read>(&mut self, from: &mut F) -> Result<(), Failed> {
        let mut input = io::large_buffer();
        for _ in 0..u64::MAX {
            match system::read(from, &mut input) {
                Ok(0) => return self.last(),
                Ok(n) => self.feed(&input[..n])?,
                Err(error) => {
                    system::failure::tell(self.out.rt, "input", &error);
                    return Err(Failed);
                }
            }
        }
        Ok(())
    }

    // More of the input: its whole lines are answered, and nothing waits while the next is read. A line end stands before each part but the first.
    fn feed(&mut self, input: &[u8]) -> Result<(), Failed> {
        let mut parts = input.split(|b| *b == b'\n');
        if let Some(part) = parts.next() {
            self.read(part)?;
        }
        for part in parts {
            self.reply()?;
            self.read(part)?;
        }
        self.out.flush()
    }

    // More of a line, byte by byte; one that is copied is put out as it comes.
    fn read(&mut self, part: &[u8]) -> Result<(), Failed> {
        let mut line = self.line;
        for b in part {
            let step = line::next(line, *b);
            line = step.to;
            if let Some(found) = step.found {
                self.held.hold(found);
            }
            if let Line::Comment = line {
                self.out.put(*b)?;
            }
        }
        self.line = line;
        Ok(())
    }

    // The answer of a whole line.
    fn reply(&mut self) -> Result<(), Failed> {
        let end = line::ended(self.line);
        if let Some(found) = end.found {
            self.held.hold(found);
        }
        self.line = Line::Empty;
        answer::answer(end.to, &mut self.held, &mut self.out)?;
        self.held.taken = 0;
        self.out.put(b'\n')
    }

    // The last line, where it has no line end.
    fn last(&mut self) -> Result<(), Failed> {
        if let Line::Empty = self.line {
            return Ok(());
        }
        self.reply()?;
        self.out.flush()
    }
}

fn main(rt: HostRuntime) {
    let mut tool = Tool {
        line: Line::Empty,
        held: Held::new(),
        out: Out::new(&rt),
    };
    // What failed is told already.
    let _ = tool.run(&mut rt.stdin());
}
