// A double and its bit pattern, both ways.
ghost use Rattle.double.specs.Pattern.{FromPatternSays, ToPatternSays};

// The patterns above infinity's, the sign left out, are the NaNs'.
const INFINITY: u64 = 0x7FF0_0000_0000_0000;

// The weight of the sign bit, and of the exponent's field.
pub const SIGN: u64 = 0x8000_0000_0000_0000;

pub const FIELD: u64 = 0x0010_0000_0000_0000;

// The double whose bits these are. Every NaN's pattern gives the one NaN: a payload is not kept.
pub fn from_pattern(bits: u64) -> f64
    ensures { FromPatternSays bits result }
{
    if INFINITY < bits % SIGN {
        return f64::NAN;
    }
    f64::from_bits(bits)
}

// The pattern of every NaN.
const NAN: u64 = 0x7FF8_0000_0000_0000;

// The bits of x. Every NaN gives the same ones.
pub fn to_pattern(x: f64) -> u64
    ensures { ToPatternSays x result }
{
    if x.is_nan() {
        return NAN;
    }
    x.to_bits()
}
