// The answer of `crease`.
use crate::fault::Fault;
use crate::held::{CORNERS, COUNTS};
use crate::out::{Failed, Out};
use crate::sides::point;
use crate::word::Word;
use crease::answer::Claim;
use std::io::{Eprint, Print};

// plan N COUNT .. D D D ..: N counts stand before the point and the corners' doubles. A count is held as the double of which it is the pattern.
pub fn plan<R: Print + Eprint>(n: u32, list: &[f64], out: &mut Out<R>) -> Result<(), Fault> {
    let mut counts = [0usize; COUNTS];
    let counts = counts.get_mut(..n as usize).ok_or(Fault::Unclear)?;
    let (patterns, doubles) = list.split_at_checked(counts.len()).ok_or(Fault::Unclear)?;
    let (p, corners) = doubles.split_first_chunk().ok_or(Fault::Unclear)?;
    if CORNERS < corners.len() {
        return Err(Fault::Unclear);
    }
    for (count, x) in counts.iter_mut().zip(patterns) {
        *count = double::to_pattern(*x) as usize;
    }
    Ok(told(crease::plan(counts, corners, point(p))?, out)?)
}

fn told<R: Print + Eprint>(claim: Claim, out: &mut Out<R>) -> Result<(), Failed> {
    out.put_first(Word::Plan)?;
    match claim {
        Claim::Border(k) => out.put_named(Word::Border, k as u64),
        Claim::None => out.put_word(Word::NoZone),
        Claim::Alone(k) => out.put_named(Word::Alone, k as u64),
        Claim::Shared(both) => {
            out.put_named(Word::Shared, both.first as u64)?;
            out.put_number(both.second as u64)
        }
    }
}
