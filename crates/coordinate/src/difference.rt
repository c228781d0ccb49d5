// The difference of two patterns of an axis, as a number of a track file. It is signed by arithmetic on the pattern, which loses no bit.
ghost use Rattle.std.specs.Prelude.{◌≡◌};
ghost use Rattle.coordinate.specs.Difference.{restored_of, StoredSays};

// The weight of a pattern's top bit: a difference from here on is negative, and so is a coordinate.
pub const SIGN: u64 = 0x8000_0000_0000_0000;

// The number that is stored for a pattern and the one before it.
pub fn stored(pattern: u64, before: u64) -> u64
    ensures { StoredSays pattern before result }
{
    let d = pattern.wrapping_sub(before);
    if d < SIGN {
        2 * d
    } else {
        2 * (u64::MAX - d) + 1
    }
}

// The pattern that a stored number and the pattern before it stand for.
pub fn restored(number: u64, before: u64) -> u64
    ensures { result ≡ restored_of number before }
{
    let half = number / 2;
    let d = if number % 2 == 0 {
        half
    } else {
        u64::MAX - half
    };
    d.wrapping_add(before)
}
