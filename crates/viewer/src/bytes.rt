// Doubles from patterns, and patterns from bytes: eight to each, lowest first.
ghost use Rattle.std.specs.Prelude.{◌≡◌, ◌/◌, ◌≤◌, length, take};
ghost use Rattle.viewer.specs.Bytes.{doubles_of, pattern_bytes, point_of};

use double::from_pattern;
use point::Point;

pub fn point_of(x: u64, y: u64) -> Point
    ensures { result ≡ point_of x y }
{
    Point {
        x: from_pattern(x),
        y: from_pattern(y),
    }
}

// Puts the doubles of all patterns, eight bytes each, at the start of a list.
pub fn decode(bytes: &[u8], list: &mut [f64])
    requires { length bytes.now / pattern_bytes ≤ length list.old }
    ensures { take (length bytes.now / pattern_bytes) list.new ≡ doubles_of bytes.now }
{
    let (patterns, _) = bytes.as_chunks::<8>();
    for (i, pattern) in patterns.iter().enumerate() {
        list[i] = from_pattern(u64::from_le_bytes(*pattern));
    }
}
