// The coordinates that geometry and tracks accept, and the point.
#![tactic(auto)]

ghost use Rattle.std.specs.Prelude.{◌≡◌};
ghost use Rattle.refusal.specs.Outcome.{outcome, not_accepted};
ghost use Rattle.refusal.specs.Search.{passing_from};
ghost use Rattle.point.specs.Accepted.{AcceptedSays, AllAcceptedSays, MagnitudeSays};
ghost use Rattle.point.specs.High.{AcceptedHighSays, AllAcceptedHighSays};
ghost use Rattle.point.specs.Parts.{within_of};

use refusal::{Kind, Refusal, refused};

// A point of the ground plan.
#[derive(Clone, Copy, PartialEq)]
pub struct Point {
    pub x: f64,
    pub y: f64,
}

// A point with a height.
#[derive(Clone, Copy)]
pub struct HighPoint {
    pub x: f64,
    pub y: f64,
    pub height: f64,
}

// 2^-400 and 2^400, the ends of the range.
const LEAST: f64 = 3.8725919148493183e-121;

const GREATEST: f64 = 2.5822498780869086e120;

// 2^-300 and 2^300, the ends of the range for points with a height.
const LEAST_HIGH: f64 = 4.909093465297727e-91;

const GREATEST_HIGH: f64 = 2.037035976334486e90;

// x without its sign. Not `abs`, which turns a -0 into +0: here it stays.
pub fn magnitude(x: f64) -> f64
    ensures { MagnitudeSays x result }
{
    if x < 0.0 { -x } else { x }
}

// The test of the four calls, for the range from `least` to `greatest`.
fn within(x: f64, least: f64, greatest: f64) -> bool
    ensures { result ≡ within_of x least greatest }
{
    let m = magnitude(x);
    if least <= m { m <= greatest } else { m == 0.0 }
}

// Of several: refusal 3 at the first that fails the test.
fn all_within(coordinates: &[f64], least: f64, greatest: f64) -> Result<(), Refusal>
    ensures { outcome (λ u. u) result ≡ passing_from (λ x. within_of x least greatest) not_accepted 0 coordinates.now tt }
{
    for (place, &x) in coordinates.iter().enumerate() {
        if !within(x, least, greatest) {
            return refused(Kind::NotAccepted, place);
        }
    }
    Ok(())
}

// Whether x is a zero, or of a magnitude from 2^-400 to 2^400. An infinity or not-a-number is not.
pub fn accepted(x: f64) -> bool
    ensures { AcceptedSays x result }
{
    within(x, LEAST, GREATEST)
}

// The same for a coordinate of a point with a height, from 2^-300 to 2^300.
pub fn accepted_high(x: f64) -> bool
    ensures { AcceptedHighSays x result }
{
    within(x, LEAST_HIGH, GREATEST_HIGH)
}

// Refusal 3 at the first of these coordinates that is not accepted, if there is one.
pub fn all_accepted(coordinates: &[f64]) -> Result<(), Refusal>
    ensures { AllAcceptedSays coordinates.now result }
{
    all_within(coordinates, LEAST, GREATEST)
}

// The same for coordinates of points with a height.
pub fn all_accepted_high(coordinates: &[f64]) -> Result<(), Refusal>
    ensures { AllAcceptedHighSays coordinates.now result }
{
    all_within(coordinates, LEAST_HIGH, GREATEST_HIGH)
}
