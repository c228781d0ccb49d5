// The side of a point, its sign alone, the zone, and the side of a plane.
//
// No public function has a `requires`. What lies inside is private: the exact product, and what is asked of accepted points.
#![tactic(auto)]

pub mod answer;
mod corner;
mod edges;
pub mod limit;
mod opening;
mod planes;
mod product;
mod roundoff;
mod run_out;
mod sides;
mod turning;
mod zones;

pub use corner::next_of;
pub use planes::plane;
pub use sides::{side, sign};
pub use zones::zone;
