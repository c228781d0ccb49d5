// The sign of a total that is held as words of 64 bits, the lowest first, in two's complement.
ghost use Rattle.std.specs.Prelude.{◌≡◌, ◌==◌, length};
ghost use Rattle.std.specs.List.{list_all};
ghost use Rattle.total.specs.Words.{count};
ghost use Rattle.sum.specs.Words.{SignSays};

use crate::answer::Sign;
use total::WORDS;

// The top bit of a word.
const TOP: u64 = 0x8000_0000_0000_0000;

fn all_zero(words: &[u64]) -> bool
    ensures { result ≡ list_all (λ word. word == 0) words.now }
{
    words.iter().all(|word| *word == 0)
}

// The sign of a total: its top bit, and whether a word is not 0.
pub fn sign_of(words: &[u64]) -> Sign
    requires { length words.now ≡ count }
    ensures { SignSays words.now result }
{
    if TOP <= words[WORDS - 1] {
        return Sign::Minus;
    }
    if all_zero(words) {
        Sign::Zero
    } else {
        Sign::Plus
    }
}
