// The answer of `meeting` on a path piece and a crease.
use crate::fault::Fault;
use crate::out::Out;
use crate::sides::point;
use crate::word::Word;
use meeting::answer::{Meeting, Piece};
use std::io::{Eprint, Print};

// meet D D D D D D D D: how the path piece and the crease meet.
pub fn meet<R: Print + Eprint>(list: &[f64], out: &mut Out<R>) -> Result<(), Fault> {
    let ([p, q, a, b], []) = list.as_chunks() else {
        return Err(Fault::Unclear);
    };
    let path = Piece {
        from: point(p),
        to: point(q),
    };
    let crease = Piece {
        from: point(a),
        to: point(b),
    };
    let meeting = meeting::meet(path, crease)?;
    out.put_first(Word::Meet)?;
    Ok(out.put_word(meeting.into())?)
}

impl From<Meeting> for Word {
    fn from(meeting: Meeting) -> Word {
        match meeting {
            Meeting::Apart => Word::Apart,
            Meeting::Touching => Word::Touching,
            Meeting::Crossing => Word::Crossing,
            Meeting::Overlapping => Word::Overlapping,
        }
    }
}
