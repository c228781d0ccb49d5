// A total held as words of 64 bits, the lowest first, two's complement: it wraps at 2^2112. In units of 2^-1074 it has room for every
// total of 1,024 doubles.
ghost use Rattle.std.specs.Prelude.{◌≡◌, ◌+◌, ◌*◌, ◌^◌, ◌<◌, ◌≤◌, length};
ghost use Rattle.total.specs.Words.{base, count};
ghost use Rattle.total.specs.Parts.{Changed, InRange, Stored, adds_of, one_adds, one_takes, takes_of};

use double::answer::Parts;

// The words of a total.
pub const WORDS: usize = 33;

// One word with n added, or taken away; and whether 1 goes over to the next word.
fn stored(takes: bool, word: u64, n: u64) -> (u64, bool)
    ensures { Stored base takes word n result.1 result.0 }
{
    if takes {
        word.overflowing_sub(n)
    } else {
        word.overflowing_add(n)
    }
}

// Adds 1, or takes it away: that goes on as long as 1 goes over, and past the top it is dropped. Few numbers come here: with the hint a
// plain sum takes a sixth fewer instructions.
#[cold]
fn carry(takes: bool, words: &mut [u64])
    ensures { Changed base words.old words.new (one_adds takes) (one_takes takes) }
{
    for word in words.iter_mut() {
        let (after, over) = stored(takes, *word, 1);
        *word = after;
        if !over {
            return;
        }
    }
}

// Adds a number of two words, or takes it away. Few go over further, so only they look at more words.
fn change(takes: bool, words: &mut [u64], low: u64, high: u64)
    requires { (2 ≤ length words.old) × (high < 2 ^ 53) }
    ensures { Changed base words.old words.new (one_adds takes * (low + base * high)) (one_takes takes * (low + base * high)) }
{
    let (first, over) = stored(takes, words[0], low);
    words[0] = first;
    let (second, over) = stored(takes, words[1], high + over as u64);
    words[1] = second;
    if over {
        carry(takes, &mut words[2..]);
    }
}

// The total with one double more, by its parts. Its significand, shifted, lies in the two words from exponent / 64 on.
pub fn put(words: &mut [u64], p: Parts)
    requires { (length words.old ≡ count) × InRange p.significand p.exponent }
    ensures { Changed base words.old words.new (adds_of p) (takes_of p) }
{
    let k = (p.exponent / 64) as usize;
    let r = p.exponent % 64;
    let low = p.significand << r;
    let high = p.significand >> 1 >> (63 - r);
    change(p.negative, &mut words[k..], low, high);
}
