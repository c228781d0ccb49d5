// The ceiling of a list, in two passes: the grain, then what the entries weigh over it. Only `ceiling` refuses: the others take what it has
// found finite, and a list that is short enough.
ghost use Rattle.std.specs.Prelude.{◌≡◌, ◌/◌, ◌^◌, min, T};
ghost use Rattle.std.specs.Int.Count.{count_trailing_zeros};
ghost use Rattle.std.specs.Float.{binary64};
ghost use Rattle.std.specs.Float.Ieee.{size};
ghost use Rattle.std.specs.Float.Ieee.Scale.{finite};
ghost use Rattle.double.specs.Worth.{mag};
ghost use Rattle.sum.specs.Limit.{divisor};
ghost use Rattle.sum.specs.Refused.{Accepted, AllFinite};
ghost use Rattle.sum.specs.Ceiling.{digits, grain_of, round_up, weight_of, CeilingSays};

use crate::fault::first_fault;
use double::take_apart;
use refusal::Refusal;

// A magnitude is below 2^2098 units of 2^-1074.
const DIGITS: u32 = 2098;

// A double's 53 digits, less 10 for a list of at most 2^10 entries: by so much a roundoff is shorter than the entry in whose place it goes.
const DIVISOR: u32 = 43;

// How often 2 divides x, in units. It divides a zero without end: there DIGITS, more than for any other double.
fn twos(x: f64) -> u32
    requires { T (finite x) }
    ensures { result ≡ count_trailing_zeros digits (mag binary64 x) }
{
    let p = take_apart(x).unwrap();
    let s = p.significand;
    if s == 0 {
        return DIGITS;
    }
    s.trailing_zeros() + p.exponent
}

// The bit length of x divided by 2^grain, in units.
fn length_over(x: f64, grain: u32) -> u32
    requires { T (finite x) }
    ensures { result ≡ size (mag binary64 x / 2 ^ grain) }
{
    let p = take_apart(x).unwrap();
    let length = 64 - p.significand.leading_zeros() + p.exponent;
    if length <= grain {
        return 0;
    }
    length - grain
}

// What the entry x adds to the ceiling: its length, divided and rounded up.
fn share(x: f64, grain: u32) -> u32
    requires { T (finite x) }
    ensures { result ≡ round_up divisor (size (mag binary64 x / 2 ^ grain)) }
{
    (length_over(x, grain) + (DIVISOR - 1)) / DIVISOR
}

// The first pass: the greatest power of two that divides every entry.
fn grain(list: &[f64]) -> u32
    requires { AllFinite list.now }
    ensures { result ≡ grain_of list.now }
{
    let mut g = DIGITS;
    for x in list.iter().rev() {
        g = g.min(twos(*x));
    }
    g
}

// The second pass: what the entries add up to, at most 49 each.
fn weight(list: &[f64], grain: u32) -> u32
    requires { Accepted list.now }
    ensures { result ≡ weight_of divisor grain list.now }
{
    let mut w: u32 = 0;
    for x in list.iter().rev() {
        w += share(*x, grain);
    }
    w
}

// A run on the list with this budget, or a greater one, always decides.
pub fn ceiling(list: &[f64]) -> Result<u32, Refusal>
    ensures { CeilingSays list.now result }
{
    first_fault(list)?;
    Ok(weight(list, grain(list)))
}
