// Numbers of a track file: reading one at any offset of any bytes, and how many bytes one takes.
//
// No public function has a `requires`: a number is read or refused at every offset.
#![tactic(auto)]

pub mod answer;
mod numbers;

pub use numbers::{TOP, number_at, number_len};
