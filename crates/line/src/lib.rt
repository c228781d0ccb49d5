// One line of questions, byte by byte: what it asks, by the rules of its words and numbers.
//
// No public function has a `requires`, and none holds memory: a line is a value, and each number of it is handed out where it ends.
#![tactic(auto)]

pub mod answer;
mod argument;
mod digit;
mod file;
mod reading;
mod word;

pub use reading::{ended, next};
