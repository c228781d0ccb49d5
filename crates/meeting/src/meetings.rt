// How a path piece and a crease meet, for all doubles.
ghost use Rattle.meeting.specs.Meet.{MeetSays};

use crate::answer::{Meeting, Piece};
use crate::deciding::decide;
use point::all_accepted;
use refusal::Refusal;

// How the two meet, or refusal 3 at the first coordinate that is not accepted.
pub fn meet(path: Piece, crease: Piece) -> Result<Meeting, Refusal>
    ensures { MeetSays path crease result }
{
    let (a, b, c, d) = (path.from, path.to, crease.from, crease.to);
    all_accepted(&[a.x, a.y, b.x, b.y, c.x, c.y, d.x, d.y])?;
    Ok(decide(path, crease))
}
