// The track file, both ways: the bytes of a list of points, and the points of a file's bytes.
//
// No public function has a `requires`: each answers or refuses for every list and every file. A refusal writes nothing.
#![tactic(auto)]

mod axes;
pub mod limit;
mod put;
mod reader;
mod writer;

pub use reader::read;
pub use writer::write;
