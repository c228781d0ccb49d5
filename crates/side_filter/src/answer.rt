// What the first two stages say.
#[derive(Clone, Copy)]
pub enum Early {
    // The three points lie on a line that runs along an axis.
    Level,
    // The sign is clear: +1, and -1.
    Plus,
    Minus,
    // Nothing: the exact stage decides.
    Open,
}
