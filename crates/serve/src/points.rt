// The points of a file that was read.
ghost use Rattle.std.specs.Option.{option_copied};
ghost use Rattle.std.specs.Prelude.{◌≡◌, ◌*◌, length, Some};
ghost use Rattle.track.specs.File.{limit};
ghost use Rattle.serve.specs.Parts.{ListedSays};

use track::limit::COORDINATES;

// The points of a file, in lent memory in which the reader always has room; none of one that can not be read, or is refused.
pub fn points_of<'l>(file: Option<&[u8]>, list: &'l mut [f64; COORDINATES]) -> Option<&'l [f64]>
    ensures { ListedSays (option_copied file.entry) (option_copied result) }
{
    let n = track::read(file?, list).ok()?;
    Some(&list[..2 * n])
}
