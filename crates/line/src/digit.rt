// What a byte is as a digit.
ghost use Rattle.std.specs.Prelude.{◌≡◌};
ghost use Rattle.line.specs.Numeral.{digit_of};

// Of base 16; the digits of base 10 are below 10.
#[tactic(auto, unfolding(crate::specs::Numeral::digit_of))]
pub fn digit_of(b: u8) -> Option<u8>
    ensures { result ≡ digit_of b }
{
    match b {
        b'0'..=b'9' => Some(b - b'0'),
        b'A'..=b'F' => Some(b - b'A' + 10),
        b'a'..=b'f' => Some(b - b'a' + 10),
        _ => None,
    }
}
