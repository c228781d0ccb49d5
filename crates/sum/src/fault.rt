// Which lists are refused.
ghost use Rattle.std.specs.Prelude.{◌≡◌};
ghost use Rattle.sum.specs.Parts.{found, fault_of};

use refusal::{Kind, Refusal, refused};

// The greatest length of a list.
pub const LIMIT: usize = 1024;

// Refusal 1 for a list over the limit, then 2 at the first entry that is not finite.
pub fn first_fault(list: &[f64]) -> Result<(), Refusal>
    ensures { found result ≡ fault_of list.now }
{
    if LIMIT < list.len() {
        return refused(Kind::TooMany, 0);
    }
    for (i, x) in list.iter().enumerate() {
        if !x.is_finite() {
            return refused(Kind::NotFinite, i);
        }
    }
    Ok(())
}
