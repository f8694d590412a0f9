//! How the parse of a record ends.

/// How the parse of a record ends, from the least to the greatest severity.
#[derive(Clone, Copy, Debug, PartialEq, Eq)]
pub enum RecordOutcome {
    /// The record matches.
    Matches,
    /// The record doesn't match.
    Differs,
    /// The record or its parse is over a limit.
    Refused,
}

impl RecordOutcome {
    ghost use Rattle.std.specs.Prelude.{◌≡◌};
    ghost use Rattle.peg_record_files.specs.Places.{failures};
    ghost use Rattle.peg_record_files.specs.RecordReplies.{worse_outcome};

    /// Returns the outcome that is worse.
    pub fn worse(self, other: RecordOutcome) -> RecordOutcome
        ensures { result ≡ worse_outcome self other }
    {
        match (self, other) {
            (RecordOutcome::Matches, other) => other,
            (RecordOutcome::Differs, RecordOutcome::Refused) => RecordOutcome::Refused,
            (outcome, _) => outcome,
        }
    }

    // How many failed records a record with this outcome is.
    pub(crate) fn failures(self) -> u64
        ensures { result ≡ failures self }
    {
        match self {
            RecordOutcome::Matches => 0,
            RecordOutcome::Differs | RecordOutcome::Refused => 1,
        }
    }
}
