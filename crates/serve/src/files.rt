// Room for the bytes of a file, and what was found of the two files.
ghost use Rattle.std.specs.Option.{option_copied};
ghost use Rattle.std.specs.Prelude.{◌≡◌, ◌+◌, length};
ghost use Rattle.system.specs.Moved.{IsWithin};
ghost use Rattle.track.specs.File.{most_bytes};
ghost use Rattle.serve.specs.Printed.{found};

use track::limit::BYTES;

// Bytes that are asked for of a file: one more than the longest has, and more can not alter the first refusal.
const FILE: usize = BYTES + 1;

pub fn room() -> [u8; FILE]
    ensures { most_bytes + 1 ≡ length result }
{
    [0; FILE]
}

// The bytes of a file, by what `system::bytes_of` said of the room that it read them to; none where it could not.
pub fn file_in(room: &[u8], read: Option<usize>) -> Option<&[u8]>
    requires { IsWithin read room.now }
    ensures { option_copied result ≡ found read room.now }
{
    Some(&room[..read?])
}

// The bytes of each file; none where it could not be read, or was not opened.
#[derive(Clone, Copy)]
pub struct TwoFiles<'a> {
    pub zone: Option<&'a [u8]>,
    pub releases: Option<&'a [u8]>,
}
