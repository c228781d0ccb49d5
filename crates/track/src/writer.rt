// The writer: the file of a list of points. Its length is known before a byte is written.
ghost use Rattle.std.specs.Prelude.{◌≡◌, ◌+◌, ◌*◌, ◌≤◌, length};
ghost use Rattle.std.proofs.lemmas.List.Edits.{sets};
ghost use Rattle.track.specs.File.{limit, coordinate_bytes};
ghost use Rattle.track.specs.Write.{WriteSays, AllAccepted};
ghost use Rattle.track.specs.Parts.{measured, measure_of};

use crate::axes::Axes;
use crate::limit::COORDINATES;
use crate::put::put_number;
use coordinate::stored;
use number::number_len;
use refusal::{Kind, Refusal, refused};

// How many bytes the coordinates take, or the first that is not accepted.
fn measure(points: &[f64]) -> Result<usize, Refusal>
    requires { length points.now ≤ 2 * limit }
    ensures { measured result ≡ measure_of points.now }
{
    let mut len: usize = 0;
    let mut axes = Axes::START;
    for (place, x) in points.iter().enumerate() {
        if !point::accepted(*x) {
            return refused(Kind::NotAccepted, place);
        }
        let pattern = x.to_bits();
        len += number_len(stored(pattern, axes.before));
        axes = axes.next(pattern);
    }
    Ok(len)
}

// Writes the coordinates' numbers from an offset on.
fn put_points(points: &[f64], out: &mut [u8], start: usize)
    requires { AllAccepted points.now × (start + length (coordinate_bytes 0 0 points.now) ≤ length out.old) }
    ensures { out.new ≡ sets out.old start (coordinate_bytes 0 0 points.now) }
{
    let mut at = start;
    let mut axes = Axes::START;
    for x in points {
        let pattern = x.to_bits();
        at = put_number(out, at, stored(pattern, axes.before));
        axes = axes.next(pattern);
    }
}

// The file of a list x, y, x, y .. of points, at the start of the lent bytes; later bytes stay. In order: an odd list is refused 5, too
// many points 1, a coordinate that is not accepted 3, and too few lent bytes 9.
pub fn write(points: &[f64], out: &mut [u8]) -> Result<usize, Refusal>
    ensures { WriteSays points.now out.old result out.new }
{
    if points.len() % 2 != 0 {
        return refused(Kind::OddLength, 0);
    }
    if COORDINATES < points.len() {
        return refused(Kind::TooMany, 0);
    }
    let len = measure(points)?;
    let count = (points.len() / 2) as u64;
    let total = number_len(count) + len;
    if out.len() < total {
        return refused(Kind::NoRoom, 0);
    }
    let at = put_number(out, 0, count);
    put_points(points, out, at);
    Ok(total)
}
