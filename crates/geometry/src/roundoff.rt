// The roundoff of a product, from whole numbers: the product of the two significands, less the rounded product's significand at the same
// last place. They differ by less than 2^53, so the last words of both, of 64 binary digits, tell the difference.
ghost use Rattle.std.specs.Prelude.{◌≡◌, ◌*◌, ◌^◌, ◌≤◌, ◌<◌, ℤ, pos, nat_abs, ◌-ℤ◌, ◌*ℤ◌};
ghost use Rattle.std.specs.Float.{binary64};
ghost use Rattle.std.specs.Float.Ieee.{mul};
ghost use Rattle.double.specs.Worth.{mag, double_of};
ghost use Rattle.double.specs.Apart.{significand_of, exponent_of};
ghost use Rattle.double.proofs.Laws.Digits.{gap};
ghost use Rattle.double.proofs.Laws.Units.{Real};
ghost use Rattle.double.proofs.Laws.ExactProduct.{Factors};
ghost use Rattle.geometry.specs.Product.{roundoff_of};

use double::{FIELD, SIGN};
use word64::{last_of_product, signed_difference};

// A unit is 2^-1074, and so 2^1074 squares of units.
const UNIT_PLACE: u64 = 1074;

// The roundoff where nothing is lacking.
const NOTHING: f64 = 0.0;

// A magnitude of significand * 2^exponent units.
#[derive(Clone, Copy)]
struct Magnitude {
    significand: u64,
    exponent: u64,
}

// The magnitude of a finite double, as `double::take_apart` has it, without its tests for what is not finite.
fn whole_magnitude(x: f64) -> Magnitude
    requires { Real binary64 x }
    ensures { (result.significand ≡ significand_of (mag binary64 x)) × (result.exponent ≡ exponent_of (mag binary64 x)) }
{
    let pattern = x.to_bits();
    let field = pattern % SIGN / FIELD;
    // Field 0 has no hidden bit, and counts as field 1.
    let hidden: u64 = if field == 0 { 0 } else { 1 };
    Magnitude {
        significand: hidden * FIELD + pattern % FIELD,
        exponent: field - hidden,
    }
}

// What r * 2^cut lacks of a * b. It is less than a word holds (`gap` is the distance), so the last words tell it; `<<` leaves the last one.
fn lacking(a: u64, b: u64, r: u64, cut: u64) -> i64
    requires { (cut < 64) × (gap (r * 2 ^ cut) (a * b) < 2 ^ 53) }
    ensures { result ≡ pos (a * b) -ℤ pos (r * 2 ^ cut) }
{
    signed_difference(last_of_product(a, b), r << cut)
}

// The double of n * 2^exponent / 2^cut units, where that is whole. The pattern k * FIELD is 2^(k - 1023): so the two powers are
// 2^-(cut + 51) and 2^(exponent - 1023), together 2^(exponent - cut) units. One power alone could be below every double.
fn double_of(n: i64, exponent: u64, cut: u64) -> f64
    requires { (nat_abs n ≤ 2 ^ 53) × (0 < exponent) × (exponent ≤ 2046) × (cut ≤ 971) }
    ensures { (z : ℤ) → z *ℤ pos (2 ^ cut) ≡ n *ℤ pos (2 ^ exponent) → result ≡ double_of z }
{
    n as f64 * f64::from_bits((972 - cut) * FIELD) * f64::from_bits(exponent * FIELD)
}

// What the rounded product lacks of the exact one.
pub fn roundoff(x: f64, y: f64, rounded: f64) -> f64
    requires { Factors x y × (rounded ≡ mul binary64 x y) }
    ensures { result ≡ roundoff_of x y }
{
    let r = whole_magnitude(rounded);
    // Its last place is one unit, and the product is a whole number of units: nothing is lacking.
    if r.exponent == 0 {
        return NOTHING;
    }
    let a = whole_magnitude(x);
    let b = whole_magnitude(y);
    // The last places of the exact and of the rounded product, as powers of two, in squares of units.
    let exact_place = a.exponent + b.exponent;
    let rounded_place = r.exponent + UNIT_PLACE;
    // All digits were kept, which only a subnormal factor can bring about.
    if rounded_place <= exact_place {
        return NOTHING;
    }
    let cut = rounded_place - exact_place;
    // In last places of the exact product, of which each is 2^r.exponent / 2^cut units.
    let lack = lacking(a.significand, b.significand, r.significand, cut);
    // A negative product lacks as much the other way. The whole number is turned, and not the double: nothing stays +0.
    if rounded < 0.0 {
        return double_of(-lack, r.exponent, cut);
    }
    double_of(lack, r.exponent, cut)
}
