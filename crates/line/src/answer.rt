// A line as far as it was read, what was found in it on the way, and what it asks.
ghost use Rattle.std.specs.Prelude.{◌≡◌};
ghost use Rattle.line.specs.Next.{only};

// The words that a question begins with.
#[derive(Clone, Copy)]
pub enum Word {
    Apart,
    Run,
    Ceiling,
    Plain,
    Side,
    Zone,
    Plane,
    Meet,
    Why,
    Plan,
    Write,
    Read,
}

#[derive(Clone, Copy)]
pub enum Line {
    // Nothing of it was read.
    Empty,
    // It begins with '#', and is copied as it comes.
    Comment,
    // It is of no form that is known; what is left of it is skipped.
    Unclear,
    // The letters of the first word, as one number.
    Naming(u64),
    Counting(Counting),
    Asking(Asking),
    Reading(Reading),
}

// The count that is being read.
#[derive(Clone, Copy)]
pub struct Counting {
    pub word: Word,
    // What was read of it: nothing before its first digit.
    pub count: Option<u32>,
    // The first count of the line; 0 while it is being read itself, as `to_count` has it.
    pub many: u32,
    // How many of the counts after the first are to be read, this one among them; 0 while the first is being read.
    pub left: u32,
}

// The double that is being read, by the digits of its pattern.
#[derive(Clone, Copy)]
pub struct Asking {
    pub word: Word,
    // The first count; 0 where there is none, as `meaning_of` has it.
    pub count: u32,
    pub digits: u32,
    pub value: u64,
}

// The bytes of a file that are being read.
#[derive(Clone, Copy)]
pub struct Reading {
    pub room: u32,
    // Whether a digit was read.
    pub some: bool,
    // The first digit of a byte whose second is to be read.
    pub half: Option<u8>,
}

// What can end with a byte of a line.
#[derive(Clone, Copy)]
pub enum Found {
    // The pattern of a double, or a count of a plan.
    Number(u64),
    // A byte of a file.
    Byte(u8),
}

// What a line comes to with one byte more, or what it asks at its end; and the number that ends there.
#[derive(Clone, Copy)]
pub struct Step<T> {
    pub to: T,
    pub found: Option<Found>,
}

impl<T> Step<T> {
    // One with which no number ends.
    pub(crate) fn only(to: T) -> Step<T>
        ensures { result ≡ only to }
    {
        Step { to, found: None }
    }
}

// A word and its first count; 0 where there is none, as `meaning_of` has it.
#[derive(Clone, Copy)]
pub struct Question {
    pub word: Word,
    pub count: u32,
}

// What a whole line asks, besides what was found in it.
#[derive(Clone, Copy)]
pub enum Asked {
    // Nothing: it is empty, or was copied.
    Nothing,
    Unclear,
    OfDoubles(Question),
    // A file is to be read, with so many doubles lent.
    OfFile(u32),
}
