//! What makes the lines of records.
ghost use Rattle.std.specs.Prelude.{◌≡◌, ℕ, ◌≤◌, ◌++◌, List, IfOk};
ghost use Rattle.peg_records.specs.Ahead.{IsGivenFor};
ghost use Rattle.peg_record_files.specs.RecordReplies.{ImpliesReply};
ghost use Rattle.peg_record_files.specs.declared.outcome.RecordOutcome.{RecordOutcome};
ghost use Rattle.peg_record_files.specs.declared.place.RecordPlace.{RecordPlace};

use crate::outcome::RecordOutcome;
use crate::place::RecordPlace;
use std::alloc::{AllocError, Global};

/// Makes the lines of records.
pub trait RecordPrinter {
    // a record at this place may have this line and this outcome
    ghost replies: { Self → RecordPlace → (text line : List ℕ) → RecordOutcome → Type 0 };

    // A longer record may be given in part.
    ghost max_bytes: { Self → ℕ };

    /// Returns the limit: a record with more bytes may be given in part, as more bytes than that.
    fn max_bytes(&self) -> usize
        ensures bytes { result ≡ max_bytes self.now }
        ensures range { result ≤ 9223372036854775807 };

    /// Appends the line of the record at this place, of which these bytes are given, and returns its outcome.
    /// Appends a part of it, or nothing, if an allocation fails. Later lines may be made faster for it.
    fn push_line(
        &mut self,
        alloc: Global,
        place: RecordPlace,
        given: &[u8],
        lines: &mut Vec<u8>,
    ) -> Result<RecordOutcome, AllocError>
        ensures line { (text : List ℕ) → IsGivenFor (max_bytes self.old) given.now text → IfOk result (λ outcome.
            (line : List ℕ) × replies self.old place text line outcome
            × (lines.new.items ≡ lines.old.items ++ line)) }
        ensures replies { ImpliesReply (replies self.new) (replies self.old) }
        ensures limit { max_bytes self.new ≡ max_bytes self.old };
}
