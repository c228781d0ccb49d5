// The refusal of a report.
use refusal::Refusal;

// Which of the two files is refused, and how.
#[derive(Clone, Copy)]
pub enum ReportRefusal {
    // As `judge` refuses the zone.
    Zone(Refusal),
    // The reader's refusal of the file, or 9 at place 0.
    Releases(Refusal),
}
