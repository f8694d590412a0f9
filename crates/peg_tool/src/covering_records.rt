//! What the records of texts use of a grammar: the line, and the lines for standard error.
ghost use Rattle.std.specs.Prelude.{◌≡◌, ◌≢◌, ◌⊎◌, ◌↔◌, ◌<◌, ◌++◌, ◌∷◌, [], ℕ, true, false, All, List, None, IfErr, IfOk, IfSome, IsErrOf};
ghost use Rattle.std.specs.Prelude.{length, map, string_bytes};
ghost use Rattle.std.specs.Io.KnownBytes.{Keeps};
ghost use Rattle.peg_coverage.specs.Unused.{alternative_use, rule_use};
ghost use Rattle.peg_coverage.specs.declared.coverage.UnusedRule.{UnusedRule};
ghost use Rattle.peg_io.specs.NamedFile.{IsMissing, bytes_of, is_readable};
ghost use Rattle.peg_json.specs.CoverageText.{named_use};
ghost use Rattle.peg_json.specs.Reply.{Covered};
ghost use Rattle.peg_messages.specs.FileNames.{shown_name};
ghost use Rattle.peg_parser.specs.Parser.{parser_rules};
ghost use Rattle.peg_tool.specs.CoverageWritten.{IsReplyOfKind};
ghost use Rattle.peg_tool.specs.Faults.{IsFaultAmong, IsFaultAt, plain_result, record_streams, standard_input, standard_output};
ghost use Rattle.peg_tool.specs.PreparedCoverages.{AreParsers, HasCoverageParser, IsCoverGrammarOf, IsPreparedCoverage};
ghost use Rattle.peg_tool.specs.RecordCoverage.{EndsCoverage, RecordCoverageOutcome, record_name, record_names};
ghost use Rattle.peg_tool.specs.RecordCoverageWritten.{IsRecordCoverFault, IsRecordCoverageReply, record_lines};
ghost use Rattle.peg_tool.specs.RecordFaults.{EndsRecords};
ghost use Rattle.peg_tool.specs.WordRequests.{cover_question};

use crate::covering::{CoverageReply, line_alone, push_stopped_line, write_coverage};
use crate::fault::{RequestFault, Stream};
use crate::prepare_coverage::{CoverGrammar, PreparedCoverage, prepare_coverage};
use crate::program::ProgramFault;
use crate::report::Findings;
use itoa::Buffer;
use peg_coverage::Coverage;
use peg_coverage_files::{CoverQuery, CoveringFault, cover_records};
use peg_io::{Opener, ReadFault, Sink, Source};
use peg_json::{coverage_line, long_text_line, no_start_line};
use std::alloc::{AllocError, Global};
use std::io::ErrorKind;

/// Prints what the records of texts use of the grammar file with this name, and returns the exit status and a line for
/// each stopped record. The texts are opened one after the other, if the grammar is accepted. Nothing is printed before
/// they are read.
pub(crate) fn on_record_coverage<'a, O: Opener, I: Source, W: Sink>(
    alloc: Global,
    files: &O,
    input: &mut I,
    output: &mut W,
    g: &'a str,
    query: &CoverQuery<'a>,
) -> Result<Findings, RequestFault<'a>>
    requires input_works { I.failed input.old ≡ false }
    requires output_works { W.failed output.old ≡ false }
    ensures leads { RecordCoverageOutcome (cover_question query.now) g.now (O.file_at files.now) (I.left input.old)
        (W.written output.old) (W.written output.new) (plain_result result) }
    ensures unread { map string_bytes query.now.texts.now ≢ [] → input.new ≡ input.old }
    ensures no_grammar { IsMissing (O.file_at files.now g.now)
        → IsErrOf (plain_result result) ProgramFault.File × (output.new ≡ output.old) }
    ensures device_fault { is_readable (O.file_at files.now g.now) ≡ true
        → All (λ text. is_readable (O.file_at files.now text) ≡ true) (map string_bytes query.now.texts.now)
        → (IsErrOf (plain_result result) ProgramFault.File
        ↔ ((I.failed input.new ≡ true) ⊎ (W.failed output.new ≡ true))) }
    ensures read_fault { I.failed input.new ≡ true → IsErrOf (plain_result result) ProgramFault.File }
    ensures write_fault { W.failed output.new ≡ true → IsErrOf (plain_result result) ProgramFault.File }
    ensures memory { IsErrOf (plain_result result) ProgramFault.Memory
        → Keeps (W.written output.old) (W.written output.new) }
    ensures input { I.failed input.new ≡ true → IfErr result (IsFaultAt standard_input (I.fault_kind input.new)) }
    ensures output { W.failed output.new ≡ true → IfErr result (IsFaultAt standard_output (W.fault_kind output.new)) }
    ensures missing { IsMissing (O.file_at files.now g.now) → IfErr result (IsFaultAt (shown_name g.now) None) }
    ensures cause { W.failed output.new ≡ false → is_readable (O.file_at files.now g.now) ≡ true
        → IfErr result (IsFaultAmong (record_streams (map string_bytes query.now.texts.now))) }
    ensures named { IfErr result (IsFaultAmong (shown_name g.now
        ∷ record_streams (map string_bytes query.now.texts.now) ++ standard_output ∷ [])) }
{
    let mut grammar = match files.open(g) {
        Ok(file) => file,
        Err(fault) => return Err(RequestFault::of_file(g, fault)),
    };
    match prepare_coverage(alloc, &mut grammar) {
        Ok(prepared) => cover_prepared(alloc, files, input, output, prepared, query),
        Err(ReadFault::Device) => Err(RequestFault::at(Stream::File(g), grammar.fault_kind())),
        Err(ReadFault::Memory) => Err(RequestFault::Memory),
    }
}

// Prints what the records of texts use, or the line that says why no record is covered.
fn cover_prepared<'a, O: Opener, I: Source, W: Sink>(
    alloc: Global,
    files: &O,
    input: &mut I,
    output: &mut W,
    prepared: PreparedCoverage,
    query: &CoverQuery<'a>,
) -> Result<Findings, RequestFault<'a>>
    requires input_works { I.failed input.old ≡ false }
    requires output_works { W.failed output.old ≡ false }
    requires parsers { AreParsers prepared }
    ensures leads { (file : List ℕ) → IsPreparedCoverage file prepared → EndsCoverage (cover_question query.now)
        file (O.file_at files.now) (I.left input.old) (W.written output.old) (W.written output.new)
        (plain_result result) }
    ensures ends { EndsRecords (O.file_at files.now) (map string_bytes query.now.texts.now) (I.failed input.new)
        (W.failed output.new) (I.fault_kind input.new) (W.fault_kind output.new) result }
    ensures unread { map string_bytes query.now.texts.now ≢ [] → input.new ≡ input.old }
    ensures memory { IsErrOf (plain_result result) ProgramFault.Memory
        → Keeps (W.written output.old) (W.written output.new) }
{
    match prepared {
        PreparedCoverage::Ready(grammar) => {
            cover_by_grammar(alloc, files, input, output, &grammar, query)
        }
        PreparedCoverage::Refused(line) => write_coverage(output, line_alone(alloc, line)),
    }
}

// Prints what the records of texts use of a grammar.
fn cover_by_grammar<'a, O: Opener, I: Source, W: Sink>(
    alloc: Global,
    files: &O,
    input: &mut I,
    output: &mut W,
    grammar: &CoverGrammar,
    query: &CoverQuery<'a>,
) -> Result<Findings, RequestFault<'a>>
    requires input_works { I.failed input.old ≡ false }
    requires output_works { W.failed output.old ≡ false }
    requires parsers { HasCoverageParser grammar.now }
    ensures leads { (file : List ℕ) → IsCoverGrammarOf file grammar.now → EndsCoverage (cover_question query.now)
        file (O.file_at files.now) (I.left input.old) (W.written output.old) (W.written output.new)
        (plain_result result) }
    ensures ends { EndsRecords (O.file_at files.now) (map string_bytes query.now.texts.now) (I.failed input.new)
        (W.failed output.new) (I.fault_kind input.new) (W.fault_kind output.new) result }
    ensures unread { map string_bytes query.now.texts.now ≢ [] → input.new ≡ input.old }
    ensures memory { IsErrOf (plain_result result) ProgramFault.Memory
        → Keeps (W.written output.old) (W.written output.new) }
{
    match records_reply(alloc, files, input, grammar, query) {
        Ok(reply) => write_coverage(output, reply),
        Err(fault) => Err(fault),
    }
}

// What is printed of what the records of texts use of a grammar.
fn records_reply<'a, O: Opener, I: Source>(
    alloc: Global,
    files: &O,
    input: &mut I,
    grammar: &CoverGrammar,
    query: &CoverQuery<'a>,
) -> Result<CoverageReply, RequestFault<'a>>
    requires works { I.failed input.old ≡ false }
    requires parsers { HasCoverageParser grammar.now }
    ensures answer { (file : List ℕ) → IsCoverGrammarOf file grammar.now → IfOk result
        (IsRecordCoverageReply (cover_question query.now) file (O.file_at files.now) (I.left input.old)) }
    ensures fault { IfErr result (IsRecordCoverFault (O.file_at files.now) (map string_bytes query.now.texts.now)
        (I.failed input.new) (I.fault_kind input.new)) }
    ensures read { I.failed input.new ≡ true → IsErrOf (plain_result result) ProgramFault.File }
    ensures unread { map string_bytes query.now.texts.now ≢ [] → input.new ≡ input.old }
{
    match cover_records(alloc, files, input, &grammar.coverage, query) {
        Ok(coverage) => Ok(covered_reply(alloc, grammar, &coverage)?),
        // A grammar has a first rule, so a start that is missing was given by name.
        Err(CoveringFault::NoSuchStart) => {
            let line = no_start_line(alloc, query.options.start.unwrap_or(""))?;
            Ok(line_alone(alloc, line))
        }
        Err(CoveringFault::TextTooLong) => {
            let line = long_text_line(alloc)?;
            Ok(line_alone(alloc, line))
        }
        Err(CoveringFault::File { name, kind }) => Err(RequestFault::Device {
            stream: Stream::File(name),
            kind,
        }),
        Err(CoveringFault::Input) => Err(RequestFault::Device {
            stream: Stream::Input,
            kind: input.fault_kind().unwrap_or(ErrorKind::Other),
        }),
        Err(CoveringFault::Memory) => Err(RequestFault::Memory),
    }
}

// The line of what records use, and a line for each stopped record.
fn covered_reply(
    alloc: Global,
    grammar: &CoverGrammar,
    coverage: &Coverage,
) -> Result<CoverageReply, AllocError>
    requires rules { All (λ (unused : UnusedRule). unused.rule < length (parser_rules grammar.now.parser))
        coverage.now.unused_rules.items }
    requires texts { All (λ number. number < coverage.now.texts) coverage.now.stopped.items }
    ensures { let reply = Covered coverage.now.texts coverage.now.matched coverage.now.stopped.items
        (map (named_use (parser_rules grammar.now.parser)) (map rule_use coverage.now.unused_rules.items))
        (map alternative_use coverage.now.unused_alternatives.items) in
        IfOk result (IsReplyOfKind (λ other. other ≡ reply) (record_names coverage.now.texts) grammar.now.file.items) }
{
    let line = coverage_line(alloc, &grammar.file, grammar.parser.grammar(), coverage)?;
    let faults = stopped_record_lines(alloc, &coverage.stopped)?;
    Ok(CoverageReply { line, faults })
}

// A line for each of the records with these numbers, in order.
fn stopped_record_lines(alloc: Global, stopped: &[usize]) -> Result<String, AllocError>
    ensures { IfOk result (λ lines. string_bytes lines ≡ record_lines stopped.now) }
{
    let mut lines = String::new(alloc);
    'stopped: for number in stopped {
        let name = record_name(alloc, *number)?;
        push_stopped_line(alloc, &name, &mut lines)?;
    }
    Ok(lines)
}

// The name of the record with this number from 0 on.
fn record_name(alloc: Global, number: usize) -> Result<String, AllocError>
    ensures { IfOk result (λ name. string_bytes name ≡ record_name number) }
{
    let mut buffer = Buffer::new();
    let mut name = String::from_str(alloc, "record ")?;
    name.push_str(buffer.format(number as u128 + 1))?;
    Ok(name)
}
