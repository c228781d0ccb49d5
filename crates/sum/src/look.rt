// The look at a list: its two extremes, and what they decide.
ghost use Rattle.std.specs.Prelude.{◌≡◌, ◌≤◌, ◌<◌, length};
ghost use Rattle.sum.specs.Limit.{limit};
ghost use Rattle.std.specs.Float.Ieee.{lt};
ghost use Rattle.sum.specs.Look.{times, verdict_by};
ghost use Rattle.sum.specs.Tally.{seen_of, tally_of, look_at};

use crate::answer::Sign;

// The extremes of a list: the greatest positive entry a, at the lowest index, among m positive entries; the most negative one b likewise,
// among n. Where there is none the entry is 0.0, and its index the list's length, as `extreme_of` and
// `index_of` have it.
#[derive(Clone, Copy)]
pub struct Tally {
    pub a: f64,
    pub at: usize,
    pub m: u32,
    pub b: f64,
    pub bt: usize,
    pub n: u32,
}

// What a look finds.
#[derive(Clone, Copy)]
pub enum Look {
    Neither,
    // Only positive entries, and the greatest.
    Positive(f64),
    // Only negative entries, and the most negative.
    Negative(f64),
    // Both extremes.
    Both(f64, f64),
}

// The tally with the entry x before it, at index i. Among equal entries the one before is kept. Every branch has its own `return`: where
// they join, a run over 64 entries takes a third more instructions.
fn seen(t: Tally, x: f64, i: usize) -> Tally
    requires { (t.m < limit) × (t.n < limit) }
    ensures { result ≡ seen_of i x t }
{
    let mut r = t;
    if 0.0 < x {
        r.m += 1;
        if t.a <= x {
            r.a = x;
            r.at = i;
            return r;
        }
        return r;
    }
    if x < 0.0 {
        r.n += 1;
        if x <= t.b {
            r.b = x;
            r.bt = i;
            return r;
        }
        return r;
    }
    t
}

// One pass over the list, from its end.
pub fn tallied(list: &[f64]) -> Tally
    requires { length list.now ≤ limit }
    ensures { result ≡ tally_of 0 list.now }
{
    let mut t = Tally {
        a: 0.0,
        at: list.len(),
        m: 0,
        b: 0.0,
        bt: list.len(),
        n: 0,
    };
    for (i, x) in list.iter().enumerate().rev() {
        t = seen(t, *x, i);
    }
    t
}

pub fn look_at(t: Tally) -> Look
    ensures { result ≡ look_at t }
{
    if t.m == 0 {
        if t.n == 0 {
            return Look::Neither;
        }
        return Look::Negative(t.b);
    }
    if t.n == 0 {
        return Look::Positive(t.a);
    }
    Look::Both(t.a, t.b)
}

// Whether a is greater than k times b, that product rounded once: an infinite one decides nothing.
fn exceeds(a: f64, k: u32, b: f64) -> bool
    ensures { result ≡ lt (times k b) a }
{
    (k as f64) * b < a
}

// What a look decides, of m positive and n negative entries.
pub fn judged(found: Look, m: u32, n: u32) -> Option<Sign>
    ensures { result ≡ verdict_by m n found }
{
    match found {
        Look::Neither => Some(Sign::Zero),
        Look::Positive(_) => Some(Sign::Plus),
        Look::Negative(_) => Some(Sign::Minus),
        Look::Both(a, q) => {
            let b = -q;
            if exceeds(a, n, b) {
                return Some(Sign::Plus);
            }
            if exceeds(b, m, a) {
                return Some(Sign::Minus);
            }
            None
        }
    }
}
