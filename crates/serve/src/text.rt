// The desk's text, put together in fixed memory.
ghost use Rattle.std.specs.Option.{option_copied};
ghost use Rattle.std.specs.Prelude.{◌≡◌, ◌+◌, ◌≤◌, [], length, None, Some};
ghost use Rattle.refusal.specs.Outcome.{kind_number};
ghost use Rattle.track.specs.File.{limit};
ghost use Rattle.report.specs.Report.{report_of, releases as told};
ghost use Rattle.serve.specs.Text.{decimal, place_text, line_text, header_text, refusal_text, text_of};
ghost use Rattle.serve.specs.Printed.{printed, printed_of, is_good};
ghost use Rattle.serve.specs.Parts.{text_room, Puts};

use crate::files::TwoFiles;
use refusal::Refusal;
use report::answer::ReportRefusal;
use std::marker::Model;
use track::limit::POINTS;

// Room for every text: a header of at most 30 bytes, and 512 lines of at most 29.
const TEXT: usize = 16384;

// What was put together so far, which is how a clause sees it.
#[derive(Drop)]
pub struct Text {
    bytes: [u8; TEXT],
    len: usize,
}

impl Model for Text {
    ghost use Rattle.std.specs.Prelude.{ℕ, ◌≤◌, List, take};
    ghost use Rattle.serve.specs.Parts.{text_room};

    ghost Value = { List ℕ };

    ghost view = { λ t. take t.len t.bytes };

    ghost invariant = { λ t. t.len ≤ text_room };
}

// Whether the zone could be read and is not refused.
pub fn is_good(zone: Option<&[u8]>) -> bool
    ensures { result ≡ is_good (option_copied zone.entry) }
{
    zone.is_some_and(is_good_file)
}

fn is_good_file(zone: &[u8]) -> bool
    ensures { result ≡ is_good (Some zone.now) }
{
    report::judge(zone).is_ok()
}

// All that is printed, in place of what stood.
pub fn text_of(files: TwoFiles, out: &mut Text)
    ensures { out.new ≡ printed_of files.entry }
{
    match (files.zone, files.releases) {
        (Some(zone), Some(releases)) => text_of_report(zone, releases, out),
        (Some(zone), None) => text_without(zone, out),
        (None, _) => out.set(b"unreadable zone\n"),
    }
}

// The same where the releases could not be read.
fn text_without(zone: &[u8], out: &mut Text)
    ensures { out.new ≡ printed (Some zone.now) None }
{
    match report::judge(zone) {
        Ok(_) => out.set(b"unreadable releases\n"),
        Err(r) => out.set_refusal(b"refused zone ", r),
    }
}

// The same where both could be read.
fn text_of_report(zone: &[u8], releases: &[u8], out: &mut Text)
    ensures { out.new ≡ text_of (report_of zone.now releases.now limit) }
{
    let mut codes = [0u8; POINTS];
    match report::report(zone, releases, &mut codes) {
        Ok(n) => out.set_releases(&codes[..n]),
        Err(ReportRefusal::Zone(r)) => out.set_refusal(b"refused zone ", r),
        Err(ReportRefusal::Releases(r)) => out.set_refusal(b"refused releases ", r),
    }
}

impl Text {
    pub fn new() -> Text
        ensures { result ≡ [] }
    {
        Text {
            bytes: [0; TEXT],
            len: 0,
        }
    }

    // One text serves for many lines.
    pub fn clear(&mut self)
        ensures { self.new ≡ [] }
    {
        self.len = 0;
    }

    // These words alone, in place of what stood; likewise below.
    fn set(&mut self, words: &[u8])
        requires { length words.now ≤ 32 }
        ensures { self.new ≡ words.now }
    {
        self.clear();
        self.put(words)
    }

    fn set_refusal(&mut self, words: &[u8], r: Refusal)
        requires { length words.now ≤ 32 }
        ensures { self.new ≡ refusal_text words.now (kind_number r.kind) r.place }
    {
        let number = r.kind.number() as u64;
        let place = r.place as u64;
        self.set(words);
        self.put_decimal(number);
        self.put(b" ");
        self.put_decimal(place);
        self.put(b"\n")
    }

    fn set_releases(&mut self, codes: &[u8])
        requires { length codes.now ≤ 512 }
        ensures { self.new ≡ text_of (told codes.now) }
    {
        self.set_header(codes.len());
        for (i, &place) in codes.iter().enumerate() {
            self.put_line(i + 1, place);
        }
    }

    pub fn set_header(&mut self, many: usize)
        ensures { Puts 30 [] (header_text many) self.new }
    {
        self.set(b"releases ");
        self.put_decimal(many as u64);
        self.put(b"\n")
    }

    pub fn bytes(&self) -> &[u8]
        ensures { result.now ≡ self.now }
    {
        &self.bytes[..self.len]
    }

    // Puts a text behind what stands.
    pub fn put(&mut self, text: &[u8])
        requires { length self.old + length text.now ≤ text_room }
        ensures { Puts (length text.now) self.old text.now self.new }
    {
        let end = self.len + text.len();
        self.bytes[self.len..end].copy_from_slice(text);
        self.len = end;
    }

    pub fn put_decimal(&mut self, value: u64)
        requires { length self.old + 20 ≤ text_room }
        ensures { Puts 20 self.old (decimal value) self.new }
    {
        let mut digits = [0u8; 20];
        let k = io::decimal(value, &mut digits);
        self.put(&digits[..k])
    }

    fn put_line(&mut self, release: usize, place: u8)
        requires { length self.old + 29 ≤ text_room }
        ensures { Puts 29 self.old (line_text release place) self.new }
    {
        self.put_decimal(release as u64);
        self.put_place(place)
    }

    // The end of a release's line.
    fn put_place(&mut self, place: u8)
        requires { length self.old + 9 ≤ text_room }
        ensures { Puts 9 self.old (place_text place) self.new }
    {
        match place {
            0 => self.put(b" outside\n"),
            1 => self.put(b" border\n"),
            _ => self.put(b" inside\n"),
        }
    }
}
