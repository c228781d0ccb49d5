// A total of doubles in words of 64 bits, and one double more.
//
// No public function has a `requires`. Where there are not 33 words, or the double is infinite or not a number, all words stay.
#![tactic(auto)]

mod adding;
mod words;

pub use adding::add;
pub use words::WORDS;
