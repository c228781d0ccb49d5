// One coordinate of a track file: reading it at any offset of any bytes, and the number that is stored for it.
//
// No public function has a `requires`: a coordinate is read or refused at every offset, and every pattern is stored.
#![tactic(auto)]

pub mod answer;
mod coordinates;
mod difference;

pub use coordinates::coordinate_at;
pub use difference::stored;
