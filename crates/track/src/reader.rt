// The reader: a file's points. The whole file is decoded before an entry of the lent list is written.
ghost use Rattle.std.specs.Prelude.{◌≡◌, ◌++◌, ◌*◌, ◌≤◌, length, take, drop};
ghost use Rattle.track.specs.Read.{ReadSays, coordinates_of};
ghost use Rattle.track.specs.Parts.{Promised, CountedSays, decoded};

use crate::axes::Axes;
use crate::limit::{COORDINATES, POINTS};
use coordinate::coordinate_at;
use number::answer::Number;
use number::number_at;
use refusal::{Kind, Refusal, refused};

// Decodes the last numbers of a file, which begin at `start`, one for each entry of a list. (What a refused file leaves there is not said.)
fn decode(bytes: &[u8], start: usize, list: &mut [f64]) -> Result<(), Refusal>
    ensures { decoded result list.new ≡ coordinates_of bytes.now start 0 0 (length list.old) }
{
    let mut at = start;
    let mut axes = Axes::START;
    for entry in list.iter_mut() {
        let c = coordinate_at(bytes, at, axes.before)?;
        *entry = c.value;
        at = c.next;
        axes = axes.next(c.pattern);
    }
    if at < bytes.len() {
        return refused(Kind::BytesAfter, at);
    }
    Ok(())
}

// Decodes to the one list, and copies to the other once the whole file is good.
fn deliver(
    bytes: &[u8],
    start: usize,
    points: usize,
    held: &mut [f64],
    out: &mut [f64],
) -> Result<usize, Refusal>
    requires { (2 * points ≤ length held.old) × (2 * points ≤ length out.old) }
    ensures { Promised (coordinates_of bytes.now start 0 0 (2 * points)) out.old result out.new }
{
    decode(bytes, start, &mut held[..2 * points])?;
    out[..2 * points].copy_from_slice(&held[..2 * points]);
    Ok(points)
}

// Reads what follows the number of points.
fn counted(bytes: &[u8], count: Number, out: &mut [f64]) -> Result<usize, Refusal>
    ensures { CountedSays bytes.now count out.old result out.new }
{
    if (POINTS as u64) < count.value {
        return refused(Kind::TooMany, 0);
    }
    let points = count.value as usize;
    if out.len() < 2 * points {
        return refused(Kind::NoRoom, 0);
    }
    let mut held = [0.0; COORDINATES];
    deliver(bytes, count.next, points, &mut held, out)
}

// The points of a file, at the start of the lent list; later entries stay. In order: the count is refused 6 or 7, then 1, then 9 where the
// list is shorter than two per point, then number by number 6 or 7 and 3, last 8.
pub fn read(bytes: &[u8], out: &mut [f64]) -> Result<usize, Refusal>
    ensures { ReadSays bytes.now out.old result out.new }
{
    let count = number_at(bytes, 0)?;
    counted(bytes, count, out)
}
