// The two axes of a list x, y, x, y .. of coordinates, which take turns.
ghost use Rattle.std.specs.Prelude.{◌≡◌};

// The patterns that came last: `before` of the axis whose turn it is, `other` of the other axis.
#[derive(Clone, Copy)]
pub struct Axes {
    pub before: u64,
    pub other: u64,
}

impl Axes {
    // Before a list's first coordinates.
    pub const START: Axes = Axes {
        before: 0,
        other: 0,
    };

    // After a coordinate of this pattern.
    pub fn next(self, pattern: u64) -> Axes
        ensures { result ≡ record { before = self.other; other = pattern } }
    {
        Axes {
            before: self.other,
            other: pattern,
        }
    }
}
