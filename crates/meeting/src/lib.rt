// How a path piece and a crease meet: apart, touching, crossing or overlapping.
//
// No public function has a `requires`. What lies inside is private, and is about pieces whose points are accepted.
#![tactic(auto)]

pub mod answer;
mod deciding;
mod meetings;
mod ranges;
mod sided;

pub use meetings::meet;
