//! Which records have a line.
ghost use Rattle.std.specs.Prelude.{◌≡◌};
ghost use Rattle.peg_record_files.specs.RecordReplies.{has_line};

use crate::outcome::RecordOutcome;

/// Which records have a line.
#[derive(Clone, Copy, Debug, PartialEq, Eq)]
pub enum RecordFilter {
    /// All records.
    All,
    /// Those that match.
    Matched,
    /// Those that don't match, and those that are refused.
    Failed,
}

impl RecordFilter {
    // Whether a record with this outcome has a line.
    pub(crate) fn shows(self, outcome: RecordOutcome) -> bool
        ensures { result ≡ has_line self outcome }
    {
        match (self, outcome) {
            (RecordFilter::All, _) => true,
            (RecordFilter::Matched, RecordOutcome::Matches) => true,
            (RecordFilter::Matched, _) => false,
            (RecordFilter::Failed, RecordOutcome::Matches) => false,
            (RecordFilter::Failed, _) => true,
        }
    }
}
