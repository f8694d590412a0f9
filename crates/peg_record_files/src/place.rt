//! Where a record is among the records of texts.
use crate::outcome::RecordOutcome;
use std::alloc::AllocError;

/// Where a record is among the records of texts.
#[derive(Clone, Copy, Debug, PartialEq, Eq)]
pub struct RecordPlace {
    /// The number of the record, from 1.
    pub number: u64,
    /// The number of line feeds in the records before it and in their ends.
    pub line_feeds: u64,
    /// The number of records before it that don't match or are refused.
    pub failed: u64,
}

impl RecordPlace {
    ghost use Rattle.std.specs.Prelude.{◌≡◌, ◌+◌, IfOk};
    ghost use Rattle.peg_record_files.specs.Places.{failures, first_place};

    /// Returns the place of the first record.
    pub(crate) fn first() -> RecordPlace
        ensures { result ≡ first_place }
    {
        RecordPlace {
            number: 1,
            line_feeds: 0,
            failed: 0,
        }
    }

    /// Returns the place after a record with this many line feeds, whose parse ends so. The only error is that a number is
    /// too large.
    pub(crate) fn after(
        self,
        line_feeds: u64,
        outcome: RecordOutcome,
    ) -> Result<RecordPlace, AllocError>
        ensures number { IfOk result (λ next. next.number ≡ self.number + 1) }
        ensures line_feeds { IfOk result (λ next. next.line_feeds ≡ self.line_feeds + line_feeds) }
        ensures failed { IfOk result (λ next. next.failed ≡ self.failed + failures outcome) }
    {
        match (
            self.number.checked_add(1),
            self.line_feeds.checked_add(line_feeds),
            self.failed.checked_add(outcome.failures()),
        ) {
            (Some(number), Some(line_feeds), Some(failed)) => Ok(RecordPlace {
                number,
                line_feeds,
                failed,
            }),
            _ => Err(AllocError),
        }
    }
}
