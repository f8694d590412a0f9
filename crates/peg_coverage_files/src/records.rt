//! Covers the records of texts that are read by name, or of an input.
ghost use Rattle.std.specs.Prelude.{◌≡◌, ◌≢◌, ◌↔◌, ℕ, [], All, List, IfErr, IfOk, IfSome, IsErrOf, None, OnOk, Some, false, length, map, string_bytes, true};
ghost use Rattle.std.specs.List.{flat_map};
ghost use Rattle.peg_coverage.specs.Covered.{settings_of};
ghost use Rattle.peg_coverage.specs.CoverageParser.{IsCoverageParserOf, rule_count};
ghost use Rattle.peg_coverage.specs.Unused.{IsCoverageOf};
ghost use Rattle.peg_coverage_files.specs.CoverTerms.{AreTermsOf, CoverTerms};
ghost use Rattle.peg_coverage_files.specs.CoverRuns.{CoversMore, EndsStream, IsBetween};
ghost use Rattle.peg_coverage_files.specs.CoveredTexts.{ListsWithin};
ghost use Rattle.peg_coverage_files.specs.CoveringFaults.{IsFirst, IsLong, IsShort};
ghost use Rattle.peg_coverage_files.specs.RecordFaults.{HasShortRecords, IsFaultOfNamed, IsFaultOfOpen, IsFaultOfRecords, IsFaultOfStreams, IsFaultOfTexts};
ghost use Rattle.peg_grammar.specs.Limits.{max_text_bytes};
ghost use Rattle.peg_io.specs.NamedFile.{bytes_of};
ghost use Rattle.peg_parser.specs.Parser.{start_named};
ghost use Rattle.peg_record_files.specs.Streams.{AreStreams};
ghost use Rattle.peg_records.specs.Readers as readers;
ghost use Rattle.peg_records.specs.Records.{records};
ghost use Rattle.peg_semantics.specs.Rules.{Rule};
ghost use Rattle.peg_semantics.specs.Starts.{start_name};

use crate::cover_query::CoverQuery;
use crate::cover_run::CoverRun;
use crate::fault::CoveringFault;
use peg_coverage::{Coverage, CoverageParser};
use peg_io::{OpenFault, Opener, Source};
use std::alloc::Global;
use std::io::ErrorKind;

/// Parses each record of texts by name, or of an input if no text is named, and returns what the records use of the
/// grammar that the parser was made for. A record counts as a text does in `cover_files`. Records are numbered from 0
/// on, from text to text.
///
/// A stream is read in blocks, and may have any length. In memory are a block, the start of a record up to the limit of
/// a text, what is used, and the numbers of the stopped records. The first text that can't be opened or read, and the
/// first record that is too long, end it with that fault, as does an input that can't be read. A start that no rule has
/// is reported before any text is opened.
///
/// # Example
///
/// ```
/// let query = CoverQuery { texts: &names, end: RecordEnd::Line, options, needed: RequiredMatch::Whole };
/// let coverage = cover_records(alloc, &files, &mut input, &parser, &query)?;
/// println!("{} of {} records match", coverage.matched, coverage.texts);
/// ```
pub fn cover_records<'a, O: Opener, I: Source>(
    alloc: Global,
    files: &O,
    input: &mut I,
    parser: &CoverageParser,
    query: &CoverQuery<'a>,
) -> Result<Coverage, CoveringFault<'a>>
    requires { I.failed input.old ≡ false }
    ensures no_start { (rules : List Rule) → IsCoverageParserOf rules parser.now
        → (IsErrOf result CoveringFault.NoSuchStart ↔ (start_name rules (start_named query.now.options) ≡ None)) }
    ensures covered { (rules : List Rule) (start : List ℕ) (streams : List (List ℕ)) → IsCoverageParserOf rules parser.now
        → start_name rules (start_named query.now.options) ≡ Some start
        → AreStreams (O.file_at files.now) (I.left input.old) (map string_bytes query.now.texts.now) streams
        → IfOk result (IsCoverageOf rules start (settings_of query.now.options) query.now.needed
        (map Some (flat_map (records query.now.end) streams))) }
    ensures within { (rules : List Rule) → IsCoverageParserOf rules parser.now → IfOk result (ListsWithin rules) }
    ensures present { (rules : List Rule) → IsCoverageParserOf rules parser.now
        → OnOk result (All (λ (name : List ℕ). HasShortRecords query.now.end (O.file_at files.now name))
        (map string_bytes query.now.texts.now)) }
    ensures refused { (rules : List Rule) → IsCoverageParserOf rules parser.now
        → IfErr result (IsFaultOfRecords rules query.now.end (O.file_at files.now) (I.left input.old)
        (map string_bytes query.now.texts.now) (start_named query.now.options)) }
    ensures long { (rules : List Rule) (streams : List (List ℕ)) → IsCoverageParserOf rules parser.now
        → AreStreams (O.file_at files.now) (I.left input.old) (map string_bytes query.now.texts.now) streams
        → IsErrOf result CoveringFault.TextTooLong
        → IsFirst IsShort IsLong (flat_map (records query.now.end) streams) }
    ensures input { IsErrOf result CoveringFault.Input ↔ (I.failed input.new ≡ true) }
    ensures unread { query.now.texts.now ≢ [] → input.new ≡ input.old }
    ensures never { I.never_fails input.old ≡ true → I.failed input.new ≡ false }
{
    if !parser.has_start(&query.options) {
        return Err(CoveringFault::NoSuchStart);
    }
    let mut run = CoverRun::new(alloc, parser, query.end)?;
    cover_all(alloc, &mut run, files, input, parser, query)?;
    Ok(run.covered.coverage(alloc, parser)?)
}

// Covers the records of all streams of the query.
fn cover_all<'a, O: Opener, I: Source>(
    alloc: Global,
    run: &mut CoverRun,
    files: &O,
    input: &mut I,
    parser: &CoverageParser,
    query: &CoverQuery<'a>,
) -> Result<(), CoveringFault<'a>>
    requires limit { run.old.reader.limit ≡ max_text_bytes }
    requires size { length run.old.covered.used ≡ rule_count parser.now }
    requires between { IsBetween run.old }
    requires reads { I.failed input.old ≡ false }
    ensures covers { (terms : CoverTerms) (streams : List (List ℕ)) → AreTermsOf parser.now query.now terms
        → AreStreams (O.file_at files.now) (I.left input.old) (map string_bytes query.now.texts.now) streams
        → OnOk result (CoversMore terms (flat_map (records run.old.reader.end) streams) run.old.covered run.new.covered) }
    ensures refused { (terms : CoverTerms) → AreTermsOf parser.now query.now terms
        → IfErr result (IsFaultOfStreams run.old.reader.end (O.file_at files.now) (I.left input.old)
        (map string_bytes query.now.texts.now)) }
    ensures short { (terms : CoverTerms) → AreTermsOf parser.now query.now terms
        → OnOk result (All (λ (name : List ℕ). HasShortRecords run.old.reader.end (O.file_at files.now name))
        (map string_bytes query.now.texts.now)) }
    ensures input { IsErrOf result CoveringFault.Input ↔ (I.failed input.new ≡ true) }
    ensures unread { query.now.texts.now ≢ [] → input.new ≡ input.old }
    ensures never { I.never_fails input.old ≡ true → I.failed input.new ≡ false }
{
    if query.texts.is_empty() {
        run.cover_stream(alloc, parser, query, input)
    } else {
        cover_texts(alloc, run, files, parser, query)
    }
}

// Covers the records of the texts that the query names.
fn cover_texts<'a, O: Opener>(
    alloc: Global,
    run: &mut CoverRun,
    files: &O,
    parser: &CoverageParser,
    query: &CoverQuery<'a>,
) -> Result<(), CoveringFault<'a>>
    requires limit { run.old.reader.limit ≡ max_text_bytes }
    requires size { length run.old.covered.used ≡ rule_count parser.now }
    requires between { IsBetween run.old }
    ensures covers { (terms : CoverTerms) (streams : List (List ℕ)) → AreTermsOf parser.now query.now terms
        → map (λ (name : List ℕ). bytes_of (O.file_at files.now name)) (map string_bytes query.now.texts.now)
        ≡ map Some streams
        → OnOk result (CoversMore terms (flat_map (records run.old.reader.end) streams) run.old.covered run.new.covered) }
    ensures refused { (terms : CoverTerms) → AreTermsOf parser.now query.now terms
        → IfErr result (IsFaultOfTexts run.old.reader.end (O.file_at files.now) (map string_bytes query.now.texts.now)) }
    ensures short { (terms : CoverTerms) → AreTermsOf parser.now query.now terms
        → OnOk result (All (λ (name : List ℕ). HasShortRecords run.old.reader.end (O.file_at files.now name))
        (map string_bytes query.now.texts.now)) }
    ensures input { ¬ IsErrOf result CoveringFault.Input }
{
    let texts = query.texts;
    'names: for name in texts {
        cover_text(alloc, run, files, parser, query, name)?;
    }
    Ok(())
}

// Covers the records of the text with this name.
fn cover_text<'a, O: Opener>(
    alloc: Global,
    run: &mut CoverRun,
    files: &O,
    parser: &CoverageParser,
    query: &CoverQuery<'_>,
    name: &'a str,
) -> Result<(), CoveringFault<'a>>
    requires limit { run.old.reader.limit ≡ max_text_bytes }
    requires size { length run.old.covered.used ≡ rule_count parser.now }
    requires between { IsBetween run.old }
    ensures covers { (terms : CoverTerms) → AreTermsOf parser.now query.now terms
        → IfSome (bytes_of (O.file_at files.now name.now)) (λ stream. OnOk result
        (CoversMore terms (records run.old.reader.end stream) run.old.covered run.new.covered)) }
    ensures size { length run.new.covered.used ≡ length run.old.covered.used }
    ensures between { OnOk result (IsBetween run.new) }
    ensures settings { readers.settings_of run.new.reader ≡ readers.settings_of run.old.reader }
    ensures short { (terms : CoverTerms) → AreTermsOf parser.now query.now terms
        → OnOk result (HasShortRecords run.old.reader.end (O.file_at files.now name.now)) }
    ensures refused { (terms : CoverTerms) → AreTermsOf parser.now query.now terms
        → IfErr result (IsFaultOfNamed run.old.reader.end (O.file_at files.now) name.now) }
    ensures input { ¬ IsErrOf result CoveringFault.Input }
{
    match files.open(name) {
        Ok(mut source) => cover_source(alloc, run, parser, query, &mut source, name),
        Err(OpenFault::File { kind }) => Err(CoveringFault::File { name, kind }),
        Err(OpenFault::Memory) => Err(CoveringFault::Memory),
    }
}

// Covers the records of the text with this name, which is open.
fn cover_source<'a, S: Source>(
    alloc: Global,
    run: &mut CoverRun,
    parser: &CoverageParser,
    query: &CoverQuery<'_>,
    source: &mut S,
    name: &'a str,
) -> Result<(), CoveringFault<'a>>
    requires limit { run.old.reader.limit ≡ max_text_bytes }
    requires size { length run.old.covered.used ≡ rule_count parser.now }
    requires between { IsBetween run.old }
    requires reads { S.failed source.old ≡ false }
    ensures covers { (terms : CoverTerms) → AreTermsOf parser.now query.now terms → IfSome (S.left source.old)
        (λ stream. EndsStream terms (records run.old.reader.end stream) run.old run.new result) }
    ensures size { length run.new.covered.used ≡ length run.old.covered.used }
    ensures between { OnOk result (IsBetween run.new) }
    ensures settings { readers.settings_of run.new.reader ≡ readers.settings_of run.old.reader }
    ensures refused { (rules : List Rule) → IsCoverageParserOf rules parser.now
        → IfErr result (IsFaultOfOpen rules (start_named query.now.options) name.now (S.never_fails source.old)) }
    ensures input { ¬ IsErrOf result CoveringFault.Input }
{
    match run.cover_stream(alloc, parser, query, source) {
        Err(CoveringFault::Input) => {
            let kind = source.fault_kind().unwrap_or(ErrorKind::Other);
            Err(CoveringFault::File { name, kind })
        }
        ended => ended,
    }
}
