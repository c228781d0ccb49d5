// Every answer of this crate.

// The first edge that has the point.
#[derive(Clone, Copy)]
pub struct Met {
    pub edge: usize,
    // Whether the point is a corner of it: equal in value to one of its two ends.
    pub corner: bool,
}

// The edges that count.
#[derive(Clone, Copy)]
pub struct Counted {
    // Those that count upward less those that count downward.
    pub total: i64,
    // How many bytes stand at the start of the lent room, one for each: 2k for edge k upward, 2k + 1 for edge k downward.
    pub entries: usize,
}

// Why a point has its place.
#[derive(Clone, Copy)]
pub enum Why {
    Border(Met),
    Inside(Counted),
    Outside(Counted),
}
