// The sign of a sum of doubles: by counted float steps, with a ceiling on their number, and by whole numbers.
//
// No public function has a `requires`. Each refuses a list of more than 1,024 entries (1), then one with an infinity or a NaN (2),
// and a refused call writes nothing.
#![tactic(auto)]

pub mod answer;
mod fault;
mod look;
mod measure;
mod plain_sum;
mod running;
mod stepping;
mod words;

pub use measure::ceiling;
pub use plain_sum::plain;
pub use running::run;
