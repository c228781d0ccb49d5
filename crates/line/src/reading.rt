// A line with one byte more, and its end.
ghost use Rattle.std.specs.Prelude.{◌≡◌};
ghost use Rattle.line.specs.Next.{begun_of, named_of, parted_of, grown_of, NextSays};
ghost use Rattle.line.specs.Next.{asked_of, closed_of, EndedSays};

use crate::answer::{Asked, Line, Question, Step};
use crate::argument::{asked, asking, counted, counting, taken, to_count};
use crate::file::{filed, reading};
use crate::word::{Form, form_of, naming, word_of};

// The first byte of a line.
fn begun(b: u8) -> Line
    ensures { result ≡ begun_of b }
{
    if b == b'#' {
        return Line::Comment;
    }
    naming(0, b)
}

// The first word is whole.
#[tactic(auto, unfolding(crate::specs::Word::word_of))]
fn named(letters: u64) -> Line
    ensures { result ≡ named_of letters }
{
    let Some(word) = word_of(letters) else {
        return Line::Unclear;
    };
    match form_of(word) {
        Form::Doubles => asked(word, 0),
        Form::Counted | Form::Counts | Form::File => to_count(word, 0, 0),
    }
}

// The word that is being read is whole.
fn parted(line: Line) -> Step<Line>
    ensures { result ≡ parted_of line }
{
    match line {
        Line::Comment => Step::only(Line::Comment),
        Line::Empty | Line::Unclear | Line::Reading(_) => Step::only(Line::Unclear),
        Line::Naming(letters) => Step::only(named(letters)),
        Line::Counting(c) => counted(c),
        Line::Asking(q) => taken(q),
    }
}

// One byte more of a word.
fn grown(line: Line, b: u8) -> Step<Line>
    ensures { result ≡ grown_of line b }
{
    match line {
        Line::Empty => Step::only(begun(b)),
        Line::Comment | Line::Unclear => Step::only(line),
        Line::Naming(letters) => Step::only(naming(letters, b)),
        Line::Counting(c) => Step::only(counting(c, b)),
        Line::Asking(q) => Step::only(asking(q, b)),
        Line::Reading(f) => reading(f, b),
    }
}

// The line with one byte more, which is no line end.
#[tactic(auto, unfolding(crate::specs::Next::next_of))]
pub fn next(line: Line, b: u8) -> Step<Line>
    ensures { NextSays line b result }
{
    if b == b' ' {
        parted(line)
    } else {
        grown(line, b)
    }
}

// What is asked where no word is being read.
fn asked_by(line: Line) -> Asked
    ensures { result ≡ asked_of line }
{
    match line {
        Line::Empty | Line::Comment | Line::Unclear | Line::Naming(_) | Line::Counting(_) =>
            Asked::Unclear,
        Line::Asking(q) => Asked::OfDoubles(Question {
            word: q.word,
            count: q.count,
        }),
        Line::Reading(f) => Asked::OfFile(f.room),
    }
}

// A last number is whole.
fn closed(s: Step<Line>) -> Step<Asked>
    ensures { result ≡ closed_of s }
{
    Step {
        to: asked_by(s.to),
        found: s.found,
    }
}

// A whole line: its last word is whole too.
#[tactic(auto, unfolding(crate::specs::Next::ended_of))]
pub fn ended(line: Line) -> Step<Asked>
    ensures { EndedSays line result }
{
    match line {
        Line::Empty | Line::Comment => Step::only(Asked::Nothing),
        Line::Unclear => Step::only(Asked::Unclear),
        Line::Naming(letters) => Step::only(asked_by(named(letters))),
        Line::Counting(c) => closed(counted(c)),
        Line::Asking(q) => closed(taken(q)),
        Line::Reading(f) => Step::only(filed(f)),
    }
}
