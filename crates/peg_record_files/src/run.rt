//! A run over the records of streams, one stream after the other.
ghost use Rattle.std.specs.Prelude.{◌≡◌, ◌↔◌, ℕ, ◌≤◌, [], List, IfOk, IfSome, IsErrOf, OnOk, Some, false, true};
ghost use Rattle.peg_records.specs.Readers.{IsAheadOf, rest_of};
ghost use Rattle.peg_records.specs.Records.{records};
ghost use Rattle.peg_record_files.specs.RecordReplies.{ImpliesReply};

use crate::fault::StreamFault;
use crate::filter::RecordFilter;
use crate::lines::RecordLines;
use crate::outcome::RecordOutcome;
use crate::printer::RecordPrinter;
use peg_io::{Sink, Source};
use peg_records::{RecordEnd, RecordReader};
use std::alloc::{AllocError, Global};

/// A run over the records of streams: their reader, and the lines that aren't written yet.
#[derive(Drop)]
pub(crate) struct RecordRun {
    pub(crate) reader: RecordReader,
    pub(crate) lines: RecordLines,
}

impl RecordRun {
    ghost use Rattle.peg_record_files.specs.Runs.{AddsFirst, AddsToLines, AreNoLines, IsBetween, LeadsFirst, LeadsTo, run_settings};

    /// Returns a run before its first stream. A record with more than `limit` bytes may be given in part.
    pub(crate) fn new(alloc: Global, end: RecordEnd, limit: usize) -> Result<RecordRun, AllocError>
        requires { limit ≤ 9223372036854775807 }
        ensures lines { IfOk result (λ run. AreNoLines run.lines) }
        ensures between { IfOk result IsBetween }
        ensures settings { IfOk result (λ run. run_settings run ≡ (end, limit)) }
    {
        Ok(RecordRun {
            reader: RecordReader::new(alloc, end, limit)?,
            lines: RecordLines::new(alloc),
        })
    }

    /// Writes what is asked for of the records of a stream, at the end of each block. Reads the stream to its end.
    pub(crate) fn write_stream<P: RecordPrinter, S: Source, W: Sink>(
        &mut self,
        alloc: Global,
        printer: &mut P,
        filter: RecordFilter,
        input: &mut S,
        output: &mut W,
    ) -> Result<(), StreamFault>
        requires limit { self.old.reader.limit ≡ P.max_bytes printer.old }
        requires between { IsBetween self.old }
        requires reads { S.failed input.old ≡ false }
        requires works { W.failed output.old ≡ false }
        ensures leads { IfSome (S.left input.old) (λ stream. LeadsTo (P.replies printer.old) filter self.old.reader.end
            (records self.old.reader.end stream) self.old self.new (W.written output.old) (W.written output.new) result) }
        ensures between { OnOk result (IsBetween self.new) }
        ensures settings { run_settings self.new ≡ run_settings self.old }
        ensures read { IsErrOf result StreamFault.Read ↔ (S.failed input.new ≡ true) }
        ensures write { IsErrOf result StreamFault.Write ↔ (W.failed output.new ≡ true) }
        ensures never { S.never_fails input.old ≡ true → S.failed input.new ≡ false }
        ensures printer { ImpliesReply (P.replies printer.new) (P.replies printer.old) }
        ensures limit { P.max_bytes printer.new ≡ P.max_bytes printer.old }
    {
        'blocks: for _ in 0..u64::MAX {
            if !self.reader.read_block(input)? {
                return self.write_last(alloc, printer, filter, output);
            }
            self.write_block(alloc, printer, filter, output)?;
        }
        Err(StreamFault::Memory)
    }

    // Writes what is asked for of the records that are read to their ends.
    fn write_block<P: RecordPrinter, W: Sink>(
        &mut self,
        alloc: Global,
        printer: &mut P,
        filter: RecordFilter,
        output: &mut W,
    ) -> Result<(), StreamFault>
        requires limit { self.old.reader.limit ≡ P.max_bytes printer.old }
        requires none { self.old.lines.lines.items ≡ [] }
        requires works { W.failed output.old ≡ false }
        ensures leads { (left : List ℕ) (ahead : List (List ℕ)) → IsAheadOf self.old.reader left ahead
            → LeadsFirst (P.replies printer.old) filter self.old.reader.end left ahead self.old self.new (W.written output.old)
            (W.written output.new) result }
        ensures nothing { OnOk result (rest_of self.new.reader ≡ []) }
        ensures none { OnOk result (self.new.lines.lines.items ≡ []) }
        ensures settings { run_settings self.new ≡ run_settings self.old }
        ensures read { ¬ IsErrOf result StreamFault.Read }
        ensures write { IsErrOf result StreamFault.Write ↔ (W.failed output.new ≡ true) }
        ensures printer { ImpliesReply (P.replies printer.new) (P.replies printer.old) }
        ensures limit { P.max_bytes printer.new ≡ P.max_bytes printer.old }
    {
        self.push_records(alloc, printer, filter)?;
        self.lines.write(output)?;
        Ok(())
    }

    // Adds what is asked for of the records that are read to their ends.
    fn push_records<P: RecordPrinter>(
        &mut self,
        alloc: Global,
        printer: &mut P,
        filter: RecordFilter,
    ) -> Result<(), AllocError>
        requires { self.old.reader.limit ≡ P.max_bytes printer.old }
        ensures first { (left : List ℕ) (ahead : List (List ℕ)) → IsAheadOf self.old.reader left ahead → OnOk result
            (AddsFirst (P.replies printer.old) filter self.old.reader.end left ahead self.old self.new (Some self.old.lines.lines.items)
            (Some self.new.lines.lines.items)) }
        ensures nothing { OnOk result (rest_of self.new.reader ≡ []) }
        ensures settings { run_settings self.new ≡ run_settings self.old }
        ensures printer { ImpliesReply (P.replies printer.new) (P.replies printer.old) }
        ensures limit { P.max_bytes printer.new ≡ P.max_bytes printer.old }
    {
        'records: while self.reader.next() {
            let line_feeds = self.reader.line_feeds();
            self.lines
                .push(alloc, printer, filter, self.reader.record(), line_feeds)?;
        }
        Ok(())
    }

    // Writes what is asked for of the last record of a stream, if it has no end.
    fn write_last<P: RecordPrinter, W: Sink>(
        &mut self,
        alloc: Global,
        printer: &mut P,
        filter: RecordFilter,
        output: &mut W,
    ) -> Result<(), StreamFault>
        requires limit { self.old.reader.limit ≡ P.max_bytes printer.old }
        requires nothing { rest_of self.old.reader ≡ [] }
        requires none { self.old.lines.lines.items ≡ [] }
        requires works { W.failed output.old ≡ false }
        ensures leads { (ahead : List (List ℕ)) → IsAheadOf self.old.reader [] ahead
            → LeadsTo (P.replies printer.old) filter self.old.reader.end ahead self.old self.new (W.written output.old)
            (W.written output.new) result }
        ensures between { OnOk result (IsBetween self.new) }
        ensures settings { run_settings self.new ≡ run_settings self.old }
        ensures read { ¬ IsErrOf result StreamFault.Read }
        ensures write { IsErrOf result StreamFault.Write ↔ (W.failed output.new ≡ true) }
        ensures printer { ImpliesReply (P.replies printer.new) (P.replies printer.old) }
        ensures limit { P.max_bytes printer.new ≡ P.max_bytes printer.old }
    {
        self.push_last(alloc, printer, filter)?;
        self.lines.write(output)?;
        Ok(())
    }

    // Adds what is asked for of the last record of a stream, if it has no end.
    fn push_last<P: RecordPrinter>(
        &mut self,
        alloc: Global,
        printer: &mut P,
        filter: RecordFilter,
    ) -> Result<(), AllocError>
        requires limit { self.old.reader.limit ≡ P.max_bytes printer.old }
        requires nothing { rest_of self.old.reader ≡ [] }
        ensures all { (ahead : List (List ℕ)) → IsAheadOf self.old.reader [] ahead → OnOk result
            (AddsToLines (P.replies printer.old) filter self.old.reader.end ahead self.old.lines self.new.lines) }
        ensures ready { (left : List ℕ) → IsAheadOf self.new.reader left (records self.new.reader.end left) }
        ensures nothing { rest_of self.new.reader ≡ [] }
        ensures settings { run_settings self.new ≡ run_settings self.old }
        ensures printer { ImpliesReply (P.replies printer.new) (P.replies printer.old) }
        ensures limit { P.max_bytes printer.new ≡ P.max_bytes printer.old }
    {
        if self.reader.last() {
            let line_feeds = self.reader.line_feeds();
            self.lines
                .push(alloc, printer, filter, self.reader.record(), line_feeds)?;
        }
        Ok(())
    }
}
