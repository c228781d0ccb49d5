// Why a question has no answer, and what is replied then.
use crate::out::{Failed, Out};
use crate::word::Word;
use crease::answer::ZoneRefusal;
use refusal::Refusal;
use std::io::{Eprint, Print};

#[derive(Clone, Copy)]
pub enum Fault {
    // It is of no form that is known.
    Unclear,
    Refused(Refusal),
    ZoneRefused(ZoneRefusal),
    // It has one, and a write of it failed.
    Failed,
}

impl Fault {
    // The zone's number stands behind the place.
    pub fn put<R: Print + Eprint>(self, out: &mut Out<R>) -> Result<(), Failed> {
        match self {
            Fault::Unclear => out.put_first(Word::Unclear),
            Fault::Refused(r) => refused(r, out),
            Fault::ZoneRefused(r) => {
                refused(r.refusal, out)?;
                out.put_number(r.zone as u64)
            }
            Fault::Failed => Err(Failed),
        }
    }
}

fn refused<R: Print + Eprint>(r: Refusal, out: &mut Out<R>) -> Result<(), Failed> {
    out.put_first(Word::Refused)?;
    out.put_number(r.kind.number() as u64)?;
    out.put_number(r.place as u64)
}

impl From<Refusal> for Fault {
    fn from(r: Refusal) -> Fault {
        Fault::Refused(r)
    }
}

impl From<ZoneRefusal> for Fault {
    fn from(r: ZoneRefusal) -> Fault {
        Fault::ZoneRefused(r)
    }
}

impl From<Failed> for Fault {
    fn from(_: Failed) -> Fault {
        Fault::Failed
    }
}
