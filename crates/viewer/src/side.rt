// The side of a point, for C.
ghost use Rattle.viewer.specs.Entries.{SideEntrySays};

use crate::answers::{refusal_answer, sign_answer};
use crate::bytes::point_of;

// The side of r against the line from p to q, each coordinate by its pattern: 0, 1, 2 for -1, 0, +1; or 103.
pub fn ghomxarin_side(px: u64, py: u64, qx: u64, qy: u64, rx: u64, ry: u64) -> u32
    ensures { SideEntrySays px py qx qy rx ry result }
{
    let p = point_of(px, py);
    let q = point_of(qx, qy);
    let r = point_of(rx, ry);
    match geometry::side(p, q, r) {
        Ok(t) => sign_answer(t.sign),
        Err(refusal) => refusal_answer(refusal.kind),
    }
}
