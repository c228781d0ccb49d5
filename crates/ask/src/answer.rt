// The reply to each whole line.
use crate::fault::Fault;
use crate::held::Held;
use crate::out::{Failed, Out};
use crate::part::first;
use crate::{meetings, numbers, planes, plans, reasons, sides, sums, tracks};
use line::answer::{Asked, Question, Word};
use std::io::{Eprint, Print};

// Puts the reply to what a line asks, with the numbers that are held: its answer, or why it has none. (Nothing is put before that is known.)
pub fn answer<R: Print + Eprint>(
    asked: Asked,
    held: &mut Held,
    out: &mut Out<R>,
) -> Result<(), Failed> {
    match asked_of(asked, held, out) {
        Ok(()) => Ok(()),
        Err(fault) => fault.put(out),
    }
}

// Of a line that is copied only the line end is left.
fn asked_of<R: Print + Eprint>(
    asked: Asked,
    held: &mut Held,
    out: &mut Out<R>,
) -> Result<(), Fault> {
    match asked {
        Asked::Nothing => Ok(()),
        Asked::Unclear => Err(Fault::Unclear),
        Asked::OfDoubles(q) => questioned(q, held, out),
        Asked::OfFile(room) => {
            tracks::read(room, first(&held.bytes, held.taken), &mut held.list, out)
        }
    }
}

// The doubles of a question are the first of the list, so that no more were taken than it holds. A run alters them.
fn questioned<R: Print + Eprint>(
    q: Question,
    held: &mut Held,
    out: &mut Out<R>,
) -> Result<(), Fault> {
    let list = held.list.get_mut(..held.taken).ok_or(Fault::Unclear)?;
    match q.word {
        Word::Apart => numbers::apart(list, out),
        Word::Run => sums::run(list, q.count, out),
        Word::Ceiling => sums::ceiling(list, out),
        Word::Plain => sums::plain(list, out),
        Word::Side => sides::side(list, out),
        Word::Zone => sides::zone(list, out),
        Word::Plane => planes::plane(list, out),
        Word::Meet => meetings::meet(list, out),
        Word::Why => reasons::why(q.count, list, &mut held.bytes, out),
        Word::Plan => plans::plan(q.count, list, out),
        Word::Write => tracks::write(q.count, list, &mut held.bytes, out),
        Word::Read => Err(Fault::Unclear),
    }
}
