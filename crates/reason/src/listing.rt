// The edges of a zone that count, in order.
ghost use Rattle.std.specs.Prelude.{◌≡◌, ◌+◌, ◌*◌, ◌/◌, ◌<◌, ◌≤◌, length, take};
ghost use Rattle.geometry.specs.Zone.{most, corner_at};
ghost use Rattle.reason.specs.Parts.{IsZone, Held, EndsSays, with_edge, ListedSays};

use crate::crossing::Ends;
use geometry::answer::Crossing;
use geometry::limit::MOST;
use geometry::next_of;
use point::Point;

// `geometry` has it too, and cannot make it public: it has a `requires`.
fn corner_at(corners: &[f64], k: usize) -> Point
    requires { (k < most) × (2 * k + 1 < length corners.now) }
    ensures { result ≡ corner_at corners.now k }
{
    Point {
        x: corners[2 * k],
        y: corners[2 * k + 1],
    }
}

// The ends of edge k.
pub fn ends_at(corners: &[f64], k: usize) -> Ends
    requires { IsZone corners.now × (k < length corners.now / 2) }
    ensures { EndsSays corners.now k result }
{
    Ends {
        from: corner_at(corners, k),
        to: corner_at(corners, next_of(corners.len() / 2, k)),
    }
}

// The edges that count, in order: how many upward and how many downward, and an entry for each.
#[derive(Clone, Copy)]
pub struct Listed {
    pub ups: usize,
    pub downs: usize,
    pub entries: [u8; MOST],
}

impl Listed {
    pub fn entries(&self) -> &[u8]
        requires { (self.now.ups + self.now.downs ≤ most) × (length self.now.entries ≡ most) }
        ensures { result.now ≡ take (self.now.ups + self.now.downs) self.now.entries }
    {
        &self.entries[..self.ups + self.downs]
    }

    // With edge k, whose entry is put behind the others.
    fn add(&mut self, k: usize, crossing: Crossing)
        requires { (k < most) × (self.old.ups + self.old.downs ≤ k) × (length self.old.entries ≡ most) }
        ensures { self.new ≡ with_edge self.old k crossing }
    {
        let at = self.ups + self.downs;
        match crossing {
            Crossing::None => {}
            Crossing::Up => {
                self.entries[at] = (2 * k) as u8;
                self.ups += 1;
            }
            Crossing::Down => {
                self.entries[at] = (2 * k + 1) as u8;
                self.downs += 1;
            }
        }
    }
}

// All edges, from the first to the last.
pub fn list(corners: &[f64], p: Point) -> Listed
    requires { IsZone corners.now × Held p }
    ensures { ListedSays corners.now p result }
{
    let mut listed = Listed {
        ups: 0,
        downs: 0,
        entries: [0; MOST],
    };
    for k in 0..corners.len() / 2 {
        listed.add(k, ends_at(corners, k).crossing(p));
    }
    listed
}
