// Why a release has its place: one line.
ghost use Rattle.std.specs.Prelude.{◌≡◌, map, ◌+◌, ◌*◌, ◌/◌, ◌≤◌, length};
ghost use Rattle.ground.specs.Reason.{on_border};
ghost use Rattle.point.specs.Accepted.{Accepted};
ghost use Rattle.geometry.specs.Zone.{Zoned};
ghost use Rattle.reason.specs.Why.{reason_in};
ghost use Rattle.serve.specs.Reasons.{entry_text, entries_text, list_text, total_text, counted_text, reason_text, reason_line};
ghost use Rattle.serve.specs.Parts.{text_room, Puts, entry_of};

use crate::text::Text;
use geometry::limit::MOST;
use point::Point;
use reason::answer::{Met, Why};

impl Text {
    // The line of a release, in place of what stood.
    pub fn set_line(&mut self, release: usize, corners: &[f64], p: Point)
        requires { Zoned corners.now (length corners.now / 2) × Accepted p }
        ensures { self.new ≡ reason_line release corners.now p }
    {
        self.clear();
        self.put_decimal(release as u64);
        self.put_reason(corners, p)
    }

    // The reason of p's place in a good zone, which refuses no accepted point and needs no more room: the place, and what is said of at most 64
    // entries.
    fn put_reason(&mut self, corners: &[f64], p: Point)
        requires { Zoned corners.now (length corners.now / 2) × Accepted p × (length self.old + 2102 ≤ text_room) }
        ensures { Puts 2102 self.old (reason_text (reason_in corners.now p)) self.new }
    {
        let mut room = [0u8; MOST];
        match reason::why(corners, p, &mut room).unwrap() {
            Why::Border(m) => self.put_border(m),
            Why::Inside(c) => {
                self.put(b" inside: ");
                self.put_counted(c.total, &room[..c.entries])
            }
            Why::Outside(c) => {
                self.put(b" outside: ");
                self.put_counted(c.total, &room[..c.entries])
            }
        }
    }

    fn put_border(&mut self, m: Met)
        requires { length self.old + 58 ≤ text_room }
        ensures { Puts 58 self.old (reason_text (on_border m.edge m.corner)) self.new }
    {
        self.put(b" border: edge ");
        self.put_decimal(m.edge as u64);
        if m.corner {
            return self.put(b", at one of its corners\n");
        }
        self.put(b", between its corners\n")
    }

    fn put_counted(&mut self, total: i64, entries: &[u8])
        requires { length self.old + (44 + 32 * length entries.now) ≤ text_room }
        ensures { Puts (44 + 32 * length entries.now) self.old (counted_text total (map entry_of entries.now)) self.new }
    {
        self.put_list(entries);
        self.put(b"total ");
        self.put_total(total);
        self.put(b"\n")
    }

    // The edges that count, or that none does.
    fn put_list(&mut self, entries: &[u8])
        requires { length self.old + (16 + 32 * length entries.now) ≤ text_room }
        ensures { Puts (16 + 32 * length entries.now) self.old (list_text (map entry_of entries.now)) self.new }
    {
        if entries.is_empty() {
            return self.put(b"no edge counts, ");
        }
        self.put_entries(entries)
    }

    fn put_entries(&mut self, entries: &[u8])
        requires { length self.old + 32 * length entries.now ≤ text_room }
        ensures { Puts (32 * length entries.now) self.old (entries_text (map entry_of entries.now)) self.new }
    {
        for &entry in entries {
            self.put_entry(entry);
        }
    }

    // An edge that counts, by its entry: 2k upward, 2k + 1 downward.
    fn put_entry(&mut self, entry: u8)
        requires { length self.old + 32 ≤ text_room }
        ensures { Puts 32 self.old (entry_text (entry_of entry)) self.new }
    {
        self.put(b"edge ");
        self.put_decimal(u64::from(entry / 2));
        if entry % 2 == 0 {
            return self.put(b" up, ");
        }
        self.put(b" down, ")
    }

    fn put_total(&mut self, total: i64)
        requires { length self.old + 21 ≤ text_room }
        ensures { Puts 21 self.old (total_text total) self.new }
    {
        if total < 0 {
            self.put(b"-");
        }
        self.put_decimal(total.unsigned_abs())
    }
}
