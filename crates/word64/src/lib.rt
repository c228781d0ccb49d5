// Words of 64 binary digits: the last word of a product; the difference of two words with its sign; a signed number without its sign.
//
// No public function has a `requires`: each answers for all words.
#![tactic(auto)]

mod words;

pub use words::{last_of_product, magnitude, signed_difference};
