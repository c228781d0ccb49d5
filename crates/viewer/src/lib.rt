// The C viewer's two entries, as `include/ghomxarin.h` declares them; `viewer_c` hands them to C.
//
// Neither has a `requires`: each answers 0, 1 or 2, or 100 plus the number of a refusal, for all patterns and all bytes.
#![tactic(auto)]

mod answers;
mod bytes;
mod side;
mod zone;

pub use side::ghomxarin_side;
pub use zone::ghomxarin_zone;
