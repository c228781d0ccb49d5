// The filter of a side: its first two stages, by doubles alone.
//
// No public function has a `requires`.
#![tactic(auto)]

pub mod answer;
mod filter;

pub use filter::filtered;
