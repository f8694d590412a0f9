//! A run over the records of streams, one stream after the other.
ghost use Rattle.std.specs.Prelude.{◌≡◌, ◌↔◌, ℕ, ◌≤◌, List, [], IfErr, IfOk, IfSome, IsErrOf, OnOk, false, length, true};
ghost use Rattle.peg_coverage.specs.CoverageParser.{IsCoverageParserOf, rule_count};
ghost use Rattle.peg_coverage_files.specs.CoverTerms.{AreTermsOf, CoverTerms};
ghost use Rattle.peg_coverage_files.specs.CoveredTexts.{IsFresh};
ghost use Rattle.peg_coverage_files.specs.RecordFaults.{IsFaultOfStream};
ghost use Rattle.peg_grammar.specs.Limits.{max_text_bytes};
ghost use Rattle.peg_parser.specs.Parser.{start_named};
ghost use Rattle.peg_records.specs.Ahead.{IsGivenFor};
ghost use Rattle.peg_records.specs.Readers.{IsAheadOf, record_at, rest_of, settings_of};
ghost use Rattle.peg_records.specs.Records.{records};
ghost use Rattle.peg_semantics.specs.Rules.{Rule};

use crate::cover_query::CoverQuery;
use crate::covered::CoveredTexts;
use crate::fault::CoveringFault;
use peg_coverage::CoverageParser;
use peg_grammar::MAX_TEXT_BYTES;
use peg_io::{ReadFault, Source};
use peg_records::{RecordEnd, RecordReader};
use std::alloc::{AllocError, Global};

/// A run over the records of streams: their reader, and what the records use so far.
#[derive(Drop)]
pub(crate) struct CoverRun {
    pub(crate) reader: RecordReader,
    pub(crate) covered: CoveredTexts,
}

impl CoverRun {
    ghost use Rattle.peg_coverage_files.specs.CoverRuns.{EndsBlock, EndsRecord, EndsStream, IsBetween};

    /// Returns a run before its first stream.
    pub(crate) fn new(
        alloc: Global,
        parser: &CoverageParser,
        end: RecordEnd,
    ) -> Result<CoverRun, AllocError>
        ensures fresh { IfOk result (λ run. IsFresh run.covered) }
        ensures between { IfOk result IsBetween }
        ensures settings { IfOk result (λ run. settings_of run.reader ≡ (end, max_text_bytes)) }
        ensures size { IfOk result (λ run. length run.covered.used ≡ rule_count parser.now) }
    {
        Ok(CoverRun {
            reader: RecordReader::new(alloc, end, MAX_TEXT_BYTES)?,
            covered: CoveredTexts::new(alloc, parser)?,
        })
    }

    /// Covers the records of a stream, which is read to its end. A failed read is `Input`.
    pub(crate) fn cover_stream<'a, S: Source>(
        &mut self,
        alloc: Global,
        parser: &CoverageParser,
        query: &CoverQuery<'_>,
        input: &mut S,
    ) -> Result<(), CoveringFault<'a>>
        requires limit { self.old.reader.limit ≡ max_text_bytes }
        requires size { length self.old.covered.used ≡ rule_count parser.now }
        requires between { IsBetween self.old }
        requires reads { S.failed input.old ≡ false }
        ensures covers { (terms : CoverTerms) → AreTermsOf parser.now query.now terms → IfSome (S.left input.old)
            (λ stream. EndsStream terms (records self.old.reader.end stream) self.old self.new result) }
        ensures size { length self.new.covered.used ≡ length self.old.covered.used }
        ensures between { OnOk result (IsBetween self.new) }
        ensures settings { settings_of self.new.reader ≡ settings_of self.old.reader }
        ensures refused { (rules : List Rule) → IsCoverageParserOf rules parser.now
            → IfErr result (IsFaultOfStream rules (start_named query.now.options)) }
        ensures read { IsErrOf result CoveringFault.Input ↔ (S.failed input.new ≡ true) }
        ensures never { S.never_fails input.old ≡ true → S.failed input.new ≡ false }
    {
        'blocks: for _ in 0..u64::MAX {
            if !self.reader.read_block(input)? {
                return self.cover_last(alloc, parser, query);
            }
            self.cover_block(alloc, parser, query)?;
        }
        Err(CoveringFault::Memory)
    }

    // Covers the records that are read to their ends.
    fn cover_block<'a>(
        &mut self,
        alloc: Global,
        parser: &CoverageParser,
        query: &CoverQuery<'_>,
    ) -> Result<(), CoveringFault<'a>>
        requires limit { self.old.reader.limit ≡ max_text_bytes }
        requires size { length self.old.covered.used ≡ rule_count parser.now }
        ensures covers { (terms : CoverTerms) (left : List ℕ) (ahead : List (List ℕ)) → AreTermsOf parser.now query.now terms
            → IsAheadOf self.old.reader left ahead → EndsBlock terms left ahead self.old self.new result }
        ensures size { length self.new.covered.used ≡ length self.old.covered.used }
        ensures nothing { OnOk result (rest_of self.new.reader ≡ []) }
        ensures settings { settings_of self.new.reader ≡ settings_of self.old.reader }
        ensures refused { (rules : List Rule) → IsCoverageParserOf rules parser.now
            → IfErr result (IsFaultOfStream rules (start_named query.now.options)) }
        ensures read { ¬ IsErrOf result CoveringFault.Input }
    {
        'records: while self.reader.next() {
            self.cover_record(alloc, parser, query)?;
        }
        Ok(())
    }

    // Covers the last record of a stream, if it has no end.
    fn cover_last<'a>(
        &mut self,
        alloc: Global,
        parser: &CoverageParser,
        query: &CoverQuery<'_>,
    ) -> Result<(), CoveringFault<'a>>
        requires limit { self.old.reader.limit ≡ max_text_bytes }
        requires size { length self.old.covered.used ≡ rule_count parser.now }
        requires nothing { rest_of self.old.reader ≡ [] }
        ensures covers { (terms : CoverTerms) (ahead : List (List ℕ)) → AreTermsOf parser.now query.now terms
            → IsAheadOf self.old.reader [] ahead → EndsStream terms ahead self.old self.new result }
        ensures size { length self.new.covered.used ≡ length self.old.covered.used }
        ensures between { OnOk result (IsBetween self.new) }
        ensures settings { settings_of self.new.reader ≡ settings_of self.old.reader }
        ensures refused { (rules : List Rule) → IsCoverageParserOf rules parser.now
            → IfErr result (IsFaultOfStream rules (start_named query.now.options)) }
        ensures read { ¬ IsErrOf result CoveringFault.Input }
    {
        if !self.reader.last() {
            return Ok(());
        }
        self.cover_record(alloc, parser, query)
    }

    // Covers the record that the reader has found.
    fn cover_record<'a>(
        &mut self,
        alloc: Global,
        parser: &CoverageParser,
        query: &CoverQuery<'_>,
    ) -> Result<(), CoveringFault<'a>>
        requires limit { self.old.reader.limit ≡ max_text_bytes }
        requires size { length self.old.covered.used ≡ rule_count parser.now }
        ensures covers { (terms : CoverTerms) (text : List ℕ) → AreTermsOf parser.now query.now terms
            → IsGivenFor self.old.reader.limit (record_at self.old.reader) text
            → EndsRecord terms text self.old self.new result }
        ensures size { length self.new.covered.used ≡ length self.old.covered.used }
        ensures same { self.new.reader ≡ self.old.reader }
        ensures refused { (rules : List Rule) → IsCoverageParserOf rules parser.now
            → IfErr result (IsFaultOfStream rules (start_named query.now.options)) }
        ensures read { ¬ IsErrOf result CoveringFault.Input }
    {
        let record = self.reader.record();
        self.covered
            .add(alloc, parser, record, &query.options, query.needed)
    }
}
