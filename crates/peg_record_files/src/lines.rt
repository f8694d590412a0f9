//! The lines of records that aren't written yet.
ghost use Rattle.std.specs.Prelude.{◌≡◌, ℕ, ◌≤◌, ◌∷◌, [], List, OnErr, OnOk, false, if◌then◌else◌, is_err, length, take};
ghost use Rattle.std.specs.Io.KnownBytes.{Appends};
ghost use Rattle.peg_io.specs.Transfer.{AppendsProperPrefix};
ghost use Rattle.peg_records.specs.Ahead.{IsGivenFor};
ghost use Rattle.peg_records.specs.Records.{line_feeds_of};
ghost use Rattle.peg_records.specs.declared.end.RecordEnd.{RecordEnd};
ghost use Rattle.peg_record_files.specs.RecordReplies.{ImpliesReply};

use crate::filter::RecordFilter;
use crate::outcome::RecordOutcome;
use crate::place::RecordPlace;
use crate::printer::RecordPrinter;
use peg_io::{DeviceFault, Sink, write_all_bytes};
use std::alloc::{AllocError, Global};

/// The lines of records that aren't written yet, the place of the next record, and the worst outcome so far.
#[derive(Drop)]
pub(crate) struct RecordLines {
    pub(crate) place: RecordPlace,
    pub(crate) outcome: RecordOutcome,
    pub(crate) lines: Vec<u8>,
}

impl RecordLines {
    ghost use Rattle.peg_record_files.specs.Runs.{AddsToLines, AreNoLines};

    /// Returns no lines, before the first record.
    pub(crate) fn new(alloc: Global) -> RecordLines
        ensures { AreNoLines result }
    {
        RecordLines {
            place: RecordPlace::first(),
            outcome: RecordOutcome::Matches,
            lines: Vec::new(alloc),
        }
    }

    /// Adds the line of the next record, of which these bytes are given, if it has one. It has this many line feeds, with
    /// its end. The only errors are a failed allocation and a number that is too large.
    pub(crate) fn push<P: RecordPrinter>(
        &mut self,
        alloc: Global,
        printer: &mut P,
        filter: RecordFilter,
        given: &[u8],
        line_feeds: u64,
    ) -> Result<(), AllocError>
        ensures line { (end : RecordEnd) (text : List ℕ) → IsGivenFor (P.max_bytes printer.old) given.now text
            → line_feeds ≡ line_feeds_of end text → OnOk result
            (AddsToLines (P.replies printer.old) filter end (text ∷ []) self.old self.new) }
        ensures printer { ImpliesReply (P.replies printer.new) (P.replies printer.old) }
        ensures limit { P.max_bytes printer.new ≡ P.max_bytes printer.old }
    {
        let len = self.lines.len();
        let outcome = printer.push_line(alloc, self.place, given, &mut self.lines)?;
        keep_line(&mut self.lines, len, filter.shows(outcome));
        self.outcome = self.outcome.worse(outcome);
        self.place = self.place.after(line_feeds, outcome)?;
        Ok(())
    }

    /// Writes the lines, and keeps none.
    pub(crate) fn write<W: Sink>(&mut self, output: &mut W) -> Result<(), DeviceFault>
        requires { W.failed output.old ≡ false }
        ensures ok { OnOk result (Appends (W.written output.old) (W.written output.new) self.old.lines.items) }
        ensures err { OnErr result
            (AppendsProperPrefix (W.written output.old) (W.written output.new) self.old.lines.items) }
        ensures failed { W.failed output.new ≡ is_err result }
        ensures none { OnOk result (self.new.lines.items ≡ []) }
        ensures same { (self.new.place ≡ self.old.place) × (self.new.outcome ≡ self.old.outcome) }
    {
        write_all_bytes(output, &self.lines)?;
        self.lines.clear();
        Ok(())
    }
}

// Keeps the bytes after these first ones only if they are shown.
fn keep_line(lines: &mut Vec<u8>, len: usize, is_shown: bool)
    requires { len ≤ length lines.old.items }
    ensures { lines.new.items ≡ (if is_shown then lines.old.items else take len lines.old.items) }
{
    if !is_shown {
        lines.truncate(len);
    }
}
