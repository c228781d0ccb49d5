// The first word of a question: its letters as one number, 256 for each.
ghost use Rattle.std.specs.Prelude.{◌≡◌};
ghost use Rattle.line.specs.Next.{naming_of};
ghost use Rattle.line.specs.Word.{word_of, form_of};

use crate::answer::{Line, Word};

// What follows a word: doubles; a count and doubles; a count, so many counts and doubles; or a count and a file's bytes.
#[derive(Clone, Copy)]
pub enum Form {
    Doubles,
    Counted,
    Counts,
    File,
}

// "apart", and so on.
const APART: u64 = 0x6170_6172_74;

const RUN: u64 = 0x7275_6E;

const CEILING: u64 = 0x6365_696C_696E_67;

const PLAIN: u64 = 0x706C_6169_6E;

const SIDE: u64 = 0x7369_6465;

const ZONE: u64 = 0x7A6F_6E65;

const PLANE: u64 = 0x706C_616E_65;

const MEET: u64 = 0x6D65_6574;

const WHY: u64 = 0x7768_79;

const PLAN: u64 = 0x706C_616E;

const WRITE: u64 = 0x7772_6974_65;

const READ: u64 = 0x7265_6164;

// There is room for eight letters.
const SEVEN_LETTERS: u64 = 0xFF_FFFF_FFFF_FFFF;

// One letter more.
pub fn naming(letters: u64, b: u8) -> Line
    ensures { result ≡ naming_of letters b }
{
    if b == 0 || SEVEN_LETTERS < letters {
        return Line::Unclear;
    }
    Line::Naming(256 * letters + b as u64)
}

#[tactic(auto, unfolding(crate::specs::Word::word_of))]
pub fn word_of(letters: u64) -> Option<Word>
    ensures { result ≡ word_of letters }
{
    match letters {
        APART => Some(Word::Apart),
        RUN => Some(Word::Run),
        CEILING => Some(Word::Ceiling),
        PLAIN => Some(Word::Plain),
        SIDE => Some(Word::Side),
        ZONE => Some(Word::Zone),
        PLANE => Some(Word::Plane),
        MEET => Some(Word::Meet),
        WHY => Some(Word::Why),
        PLAN => Some(Word::Plan),
        WRITE => Some(Word::Write),
        READ => Some(Word::Read),
        _ => None,
    }
}

pub fn form_of(word: Word) -> Form
    ensures { result ≡ form_of word }
{
    match word {
        Word::Apart
        | Word::Ceiling
        | Word::Plain
        | Word::Side
        | Word::Zone
        | Word::Plane
        | Word::Meet => Form::Doubles,
        Word::Run | Word::Why | Word::Write => Form::Counted,
        Word::Plan => Form::Counts,
        Word::Read => Form::File,
    }
}
