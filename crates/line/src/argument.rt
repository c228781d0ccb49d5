// The numbers of a question: counts, and doubles.
ghost use Rattle.std.specs.Prelude.{◌≡◌};
ghost use Rattle.line.specs.Next.{is_zero, counting_of, counted_of, after_it, to_count, listing_of, asking_of, taken_of};
ghost use Rattle.line.specs.Word.{form_of};

use crate::answer::{Asking, Counting, Found, Line, Reading, Step, Word};
use crate::digit::digit_of;
use crate::word::{Form, form_of};

const PATTERN_DIGITS: u32 = 16;

// Whether a 0 was read.
fn is_zero(count: Option<u32>) -> bool
    ensures { result ≡ is_zero count }
{
    count.is_some_and(|n| n == 0)
}

// One digit more of a count. A 0 is the only count that begins with 0.
pub fn counting(c: Counting, b: u8) -> Line
    ensures { result ≡ counting_of c b }
{
    let Some(d) = digit_of(b) else {
        return Line::Unclear;
    };
    if 9 < d || is_zero(c.count) {
        return Line::Unclear;
    }
    let Ok(count) = u32::try_from(10 * (c.count.unwrap_or(0) as u64) + d as u64) else {
        return Line::Unclear;
    };
    Line::Counting(Counting {
        count: Some(count),
        ..c
    })
}

// A count is whole: the first says what follows, and any other is found.
pub fn counted(c: Counting) -> Step<Line>
    ensures { result ≡ counted_of c }
{
    let Some(count) = c.count else {
        return Step::only(Line::Unclear);
    };
    if c.left == 0 {
        return Step::only(followed(c.word, count));
    }
    Step {
        to: listing(c.word, c.many, c.left - 1),
        found: Some(Found::Number(count as u64)),
    }
}

// What follows the first count: doubles, counts or a file's bytes.
fn followed(word: Word, count: u32) -> Line
    ensures { result ≡ after_it (form_of word) word count }
{
    match form_of(word) {
        Form::Doubles | Form::Counted => asked(word, count),
        Form::Counts => listing(word, count, count),
        Form::File => Line::Reading(Reading {
            room: count,
            some: false,
            half: None,
        }),
    }
}

// The next of the counts that are left is to be read or, where none is, the first double.
fn listing(word: Word, many: u32, left: u32) -> Line
    ensures { result ≡ listing_of word many left }
{
    if left == 0 {
        return asked(word, many);
    }
    to_count(word, many, left)
}

// A count is to be read.
pub fn to_count(word: Word, many: u32, left: u32) -> Line
    ensures { result ≡ to_count word many left }
{
    Line::Counting(Counting {
        word,
        count: None,
        many,
        left,
    })
}

// The next double is to be read.
pub fn asked(word: Word, count: u32) -> Line
    ensures { result ≡ Line.Asking (record { word = word; count = count; digits = 0; value = 0 }) }
{
    Line::Asking(Asking {
        word,
        count,
        digits: 0,
        value: 0,
    })
}

// One digit more of a double.
#[tactic(auto, using(crate::proofs::Laws::Digit::digit_small))]
pub fn asking(q: Asking, b: u8) -> Line
    ensures { result ≡ asking_of q b }
{
    let Some(d) = digit_of(b) else {
        return Line::Unclear;
    };
    if PATTERN_DIGITS <= q.digits || u64::MAX / 16 < q.value {
        return Line::Unclear;
    }
    Line::Asking(Asking {
        digits: q.digits + 1,
        value: 16 * q.value + d as u64,
        ..q
    })
}

// A double is whole.
pub fn taken(q: Asking) -> Step<Line>
    ensures { result ≡ taken_of q }
{
    if q.digits != PATTERN_DIGITS {
        return Step::only(Line::Unclear);
    }
    Step {
        to: asked(q.word, q.count),
        found: Some(Found::Number(q.value)),
    }
}
