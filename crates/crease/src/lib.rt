// Whose a release is, by a plan of zones over the whole crease.
//
// No public function has a `requires`. What lies inside is private; the walk over the zones is about lists that are as long as counted.
#![tactic(auto)]

pub mod answer;
mod claims;
mod plans;

pub use plans::plan;
