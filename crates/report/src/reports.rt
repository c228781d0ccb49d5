// The report: the places of all releases.
ghost use Rattle.report.specs.Report.{ReportSays};
ghost use Rattle.report.specs.Parts.{IsZone, CodedSays};

use crate::answer::ReportRefusal;
use crate::places::put_codes;
use crate::zones::judged;
use refusal::{Kind, Refusal};
use track::limit::COORDINATES;

// The codes of a file's releases in a judged zone.
fn coded(corners: &[f64], releases: &[u8], codes: &mut [u8]) -> Result<usize, ReportRefusal>
    requires { IsZone corners.now }
    ensures { CodedSays corners.now releases.now codes.old result codes.new }
{
    let mut points = [0.0; COORDINATES];
    let n = track::read(releases, &mut points).map_err(ReportRefusal::Releases)?;
    if codes.len() < n {
        return Err(ReportRefusal::Releases(Refusal {
            kind: Kind::NoRoom,
            place: 0,
        }));
    }
    put_codes(corners, &points[..2 * n], &mut codes[..n]);
    Ok(n)
}

// The codes of the releases of one file in the zone of another, at the start of the lent bytes; later bytes stay. In order: the zone is
// refused as `judge` refuses it, then the releases by the reader, then 9 where the lent bytes are fewer than the releases.
pub fn report(zone: &[u8], releases: &[u8], codes: &mut [u8]) -> Result<usize, ReportRefusal>
    ensures { ReportSays zone.now releases.now codes.old result codes.new }
{
    let mut held = [0.0; COORDINATES];
    let n = judged(zone, &mut held).map_err(ReportRefusal::Zone)?;
    coded(&held[..2 * n], releases, codes)
}
