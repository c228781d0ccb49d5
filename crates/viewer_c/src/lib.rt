// The C viewer's two entries as C calls them: the static library of `include/ghomxarin.h`.
//
// Each calls the function of `viewer` that has its name, and promises what that does.
#![tactic(auto)]

ghost use Rattle.viewer.specs.Entries.{SideEntrySays, ZoneEntrySays};

// The side of r against the line from p to q, each coordinate by its pattern: 0, 1, 2 for -1, 0, +1; or 103.
#[unsafe(no_mangle)]
pub extern "C" fn ghomxarin_side(px: u64, py: u64, qx: u64, qy: u64, rx: u64, ry: u64) -> u32
    ensures { SideEntrySays px py qx qy rx ry result }
{
    viewer::ghomxarin_side(px, py, qx, qy, rx, ry)
}

// Whether the point is outside the zone, on its border or inside: 0, 1, 2; or 105, 104, 101, 103, the first that fits.
#[unsafe(no_mangle)]
pub extern "C" fn ghomxarin_zone(px: u64, py: u64, corners: &[u8]) -> u32
    ensures { ZoneEntrySays px py corners.now result }
{
    viewer::ghomxarin_zone(px, py, corners)
}
