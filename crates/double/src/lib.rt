// What a double is: its worth in units of 2^-1074 and its parts.
//
// No public function has a `requires`: each answers or refuses for every double, infinities and not-a-number included.
#![tactic(auto)]

pub mod answer;
mod apart;
mod pattern;

pub use apart::take_apart;
pub use pattern::{FIELD, SIGN, from_pattern, to_pattern};
