// Why a point has its place in a zone: the edge that it is on, or the edges that count.
//
// No public function has a `requires`. What lies inside is private, and is about zones and points that are not refused.
#![tactic(auto)]

pub mod answer;
mod crossing;
mod listing;
mod reasons;

pub use reasons::why;
