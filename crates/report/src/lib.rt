// The desk's answers from the bytes of two files: the zone's and the releases'.
//
// No public function has a `requires`: each answers or refuses for every file. A refusal writes nothing.
#![tactic(auto)]

pub mod answer;
mod places;
mod reports;
mod zones;

pub use reports::report;
pub use zones::judge;
