// The corners of a zone by their numbers: here once, for every crate above.
ghost use Rattle.geometry.specs.Zone.{NextSays};

// The corner after corner k of n: corner 0 after the last one.
pub fn next_of(n: usize, k: usize) -> usize
    ensures { NextSays n k result }
{
    match k.checked_add(1) {
        Some(next) if next < n => next,
        _ => 0,
    }
}
