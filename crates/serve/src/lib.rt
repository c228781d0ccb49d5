// The desk's input and output: opens and reads its two files, and prints what they say: the places, or why they are so.
#![tactic(auto)]

mod files;
mod points;
mod reasons;
mod text;

ghost use Rattle.std.specs.Option.{option_copied};
ghost use Rattle.std.specs.Prelude.{◌≡◌, true, false, [], ◌∷◌, ◌/◌, length, get_or};
ghost use Rattle.point.specs.Accepted.{Accepted};
ghost use Rattle.geometry.specs.Zone.{Zoned};
ghost use Rattle.serve.specs.Text.{header_text};
ghost use Rattle.serve.specs.Printed.{printed_of, is_good};
ghost use Rattle.serve.specs.Reasons.{reason_line, explained_of};
ghost use Rattle.serve.specs.Parts.{Explains};

use files::{TwoFiles, file_in};
use point::Point;
use points::points_of;
use std::fs::Files;
use std::io::{Eprint, Print};
use system::files::bytes_of;
use text::Text;
use track::limit::COORDINATES;

// Prints the places of the releases, or why there are none.
pub fn desk<R: Files + Print + Eprint>(rt: &R) {
    read_then(rt, |files| files.tell(rt))
}

// Prints why each release has its place, after the desk's header; or, as the desk does, why there are no places.
pub fn why<R: Files + Print + Eprint>(rt: &R) {
    read_then(rt, |files| files.explain(rt))
}

// Reads zone.trk, then release.trk, of the working folder, and does this with them. The zone is judged before the release file is opened.
fn read_then<R: Files + Print + Eprint, F: FnOnce(TwoFiles)>(rt: &R, then: F)
    requires { (files : TwoFiles) → is_good (option_copied files.zone) ≡ true → F.pre then files }
{
    let mut room = files::room();
    let read = bytes_of(rt, "zone.trk", &mut room);
    let zone = file_in(&room, read);
    if text::is_good(zone) {
        let mut room = files::room();
        let read = bytes_of(rt, "release.trk", &mut room);
        let releases = file_in(&room, read);
        return then(TwoFiles { zone, releases });
    }
    unopened(rt, zone)
}

// Of a zone that is not good the same is told whatever the releases are.
fn unopened<R: Print + Eprint>(rt: &R, zone: Option<&[u8]>)
    requires { is_good (option_copied zone) ≡ false }
{
    let files = TwoFiles {
        zone,
        releases: None,
    };
    files.tell(rt)
}

impl TwoFiles<'_> {
    fn tell<R: Print + Eprint>(self, rt: &R) {
        let mut text = Text::new();
        text::text_of(self, &mut text);
        self.print(rt, text.bytes())
    }

    // Prints the text of what was found, which is asked of its caller.
    fn print<R: Print + Eprint>(self, rt: &R, text: &[u8])
        requires { text.now ≡ printed_of self }
    {
        system::write(rt, text);
    }

    // Reads the corners of a good zone, and the releases.
    fn explain<R: Print + Eprint>(self, rt: &R)
        requires { is_good (option_copied self.zone) ≡ true }
    {
        let mut room = [0.0; COORDINATES];
        let Some(corners) = points_of(self.zone, &mut room) else {
            return self.unexplained(rt);
        };
        let mut room = [0.0; COORDINATES];
        let Some(points) = points_of(self.releases, &mut room) else {
            return self.unexplained(rt);
        };
        self.explain_all(rt, corners, points)
    }

    // Where there is no place to explain, the desk's own text is all.
    fn unexplained<R: Print + Eprint>(self, rt: &R)
        requires { explained_of self ≡ printed_of self ∷ [] }
    {
        self.tell(rt)
    }

    // The header, and then a line for each release, until one is not written.
    fn explain_all<R: Print + Eprint>(self, rt: &R, corners: &[f64], points: &[f64])
        requires { Explains self corners.now points.now }
    {
        let many = points.len() / 2;
        let mut text = Text::new();
        if !self.print_header(rt, &mut text, many) {
            return;
        }
        // By number, which is the line's: with the two entries of each chunk the proof is longer.
        for i in 0..many {
            let p = Point {
                x: points[2 * i],
                y: points[2 * i + 1],
            };
            if !self.print_reason(rt, &mut text, i + 1, corners, p) {
                return;
            }
        }
    }

    // Prints the desk's header, which is the first piece.
    fn print_header<R: Print + Eprint>(self, rt: &R, text: &mut Text, many: usize) -> bool
        requires { header_text many ≡ get_or (explained_of self) 0 [] }
    {
        text.set_header(many);
        self.print_piece(rt, 0, text.bytes())
    }

    // Prints the line of a release, which stands behind the header and those before it.
    fn print_reason<R: Print + Eprint>(
        self,
        rt: &R,
        text: &mut Text,
        release: usize,
        corners: &[f64],
        p: Point,
    ) -> bool
        requires { Zoned corners.now (length corners.now / 2) × Accepted p
            × (reason_line release corners.now p ≡ get_or (explained_of self) release []) }
    {
        text.set_line(release, corners, p);
        self.print_piece(rt, release, text.bytes())
    }

    // Prints one piece of what is printed, and answers whether it was written: nothing may follow one that was not.
    fn print_piece<R: Print + Eprint>(self, rt: &R, i: usize, text: &[u8]) -> bool
        requires { text.now ≡ get_or (explained_of self) i [] }
    {
        system::write(rt, text)
    }
}
