//! Parses the records of texts, and writes their lines.
ghost use Rattle.std.specs.Prelude.{◌≡◌, ◌≢◌, ◌⊎◌, ◌↔◌, ◌++◌, ◌∷◌, [], ℕ, true, false, All, List, None, IfErr, IfSome, IsErrOf};
ghost use Rattle.std.specs.Prelude.{map, string_bytes};
ghost use Rattle.peg_io.specs.NamedFile.{IsMissing, bytes_of, is_readable};
ghost use Rattle.peg_messages.specs.FileNames.{shown_name};
ghost use Rattle.peg_json.specs.Statuses.{status_code};
ghost use Rattle.peg_parser.specs.declared.options.ParseOptions.{ParseOptions};
ghost use Rattle.peg_replies.specs.Commands.{parse_task};
ghost use Rattle.peg_replies.specs.RecordParsers.{IsPreparedFor, IsRecordParserOf};
ghost use Rattle.peg_replies.specs.RecordReplies.{outcome_status};
ghost use Rattle.peg_replies.specs.declared.tree_printing.TreePrinting.{TreePrinting};
ghost use Rattle.peg_tool.specs.CommandOutcome.{RecordsOutcome};
ghost use Rattle.peg_tool.specs.Faults.{IsFaultAmong, IsFaultAt, plain_result, record_streams, standard_input, standard_output};
ghost use Rattle.peg_tool.specs.RecordFaults.{EndsRecords, HasFaultOfRecords};
ghost use Rattle.peg_tool.specs.RecordResults.{records_result};

use crate::fault::{RequestFault, Stream};
use crate::program::ProgramFault;
use crate::write::write_request_line;
use peg_io::{Opener, ReadFault, Sink, Source};
use peg_json::Status;
use peg_parser::ParseOptions;
use peg_record_files::{RecordOutcome, RecordsFault, RecordsQuery, write_records};
use peg_replies::{Prepared, RecordParser, TreePrinting, prepare_records};
use std::alloc::Global;
use std::io::ErrorKind;

/// How the records of texts are parsed.
#[derive(Clone, Copy, Debug, PartialEq, Eq)]
pub struct RecordsParse<'a> {
    /// How a record is parsed.
    pub options: ParseOptions<'a>,
    /// How the answer for a record is printed.
    pub printing: TreePrinting<'a>,
    /// Which texts are read, how their records end, and which records are printed.
    pub query: RecordsQuery<'a>,
}

/// Parses each record of texts by the grammar file with this name, and returns the exit status. If the grammar is
/// accepted, the texts are opened one after the other. The lines of the records of a block are written before the next
/// block is read.
pub(crate) fn on_records<'a, O: Opener, I: Source, W: Sink>(
    alloc: Global,
    files: &O,
    input: &mut I,
    output: &mut W,
    g: &'a str,
    parse: &RecordsParse<'a>,
) -> Result<u8, RequestFault<'a>>
    requires input_works { I.failed input.old ≡ false }
    requires output_works { W.failed output.old ≡ false }
    ensures leads { IfSome (bytes_of (O.file_at files.now g.now)) (λ file. RecordsOutcome
        (parse_task parse.now.options parse.now.printing) file (map string_bytes parse.now.query.texts.now)
        parse.now.query.end parse.now.query.filter (O.file_at files.now) (I.left input.old) (W.written output.old)
        (W.written output.new) (plain_result result)) }
    ensures unread { map string_bytes parse.now.query.texts.now ≢ [] → input.new ≡ input.old }
    ensures no_grammar { IsMissing (O.file_at files.now g.now)
        → IsErrOf (plain_result result) ProgramFault.File × (output.new ≡ output.old) }
    ensures device_fault { is_readable (O.file_at files.now g.now) ≡ true
        → All (λ text. is_readable (O.file_at files.now text) ≡ true) (map string_bytes parse.now.query.texts.now)
        → (IsErrOf (plain_result result) ProgramFault.File
        ↔ ((I.failed input.new ≡ true) ⊎ (W.failed output.new ≡ true))) }
    ensures read_fault { I.failed input.new ≡ true → IsErrOf (plain_result result) ProgramFault.File }
    ensures write_fault { W.failed output.new ≡ true → IsErrOf (plain_result result) ProgramFault.File }
    ensures input { I.failed input.new ≡ true → IfErr result (IsFaultAt standard_input (I.fault_kind input.new)) }
    ensures output { W.failed output.new ≡ true → IfErr result (IsFaultAt standard_output (W.fault_kind output.new)) }
    ensures missing { IsMissing (O.file_at files.now g.now) → IfErr result (IsFaultAt (shown_name g.now) None) }
    ensures cause { W.failed output.new ≡ false → is_readable (O.file_at files.now g.now) ≡ true
        → IfErr result (IsFaultAmong (record_streams (map string_bytes parse.now.query.texts.now))) }
    ensures named { IfErr result (IsFaultAmong (shown_name g.now
        ∷ record_streams (map string_bytes parse.now.query.texts.now) ++ standard_output ∷ [])) }
{
    let mut grammar = match files.open(g) {
        Ok(file) => file,
        Err(fault) => return Err(RequestFault::of_file(g, fault)),
    };
    match prepare_records(alloc, &mut grammar, parse.options, parse.printing) {
        Ok(prepared) => write_prepared(alloc, files, input, output, prepared, &parse.query),
        Err(ReadFault::Device) => Err(RequestFault::at(Stream::File(g), grammar.fault_kind())),
        Err(ReadFault::Memory) => Err(RequestFault::Memory),
    }
}

// Writes the lines of the records, or the line that says why no record is parsed.
fn write_prepared<'a, O: Opener, I: Source, W: Sink>(
    alloc: Global,
    files: &O,
    input: &mut I,
    output: &mut W,
    prepared: Prepared<'_>,
    query: &RecordsQuery<'a>,
) -> Result<u8, RequestFault<'a>>
    requires input_works { I.failed input.old ≡ false }
    requires output_works { W.failed output.old ≡ false }
    ensures leads { (file : List ℕ) (options : ParseOptions) (printing : TreePrinting)
        → IsPreparedFor file options printing prepared.entry → RecordsOutcome (parse_task options printing) file
        (map string_bytes query.now.texts.now) query.now.end query.now.filter (O.file_at files.now) (I.left input.old)
        (W.written output.old) (W.written output.new) (plain_result result) }
    ensures ends { EndsRecords (O.file_at files.now) (map string_bytes query.now.texts.now) (I.failed input.new)
        (W.failed output.new) (I.fault_kind input.new) (W.fault_kind output.new) result }
    ensures unread { map string_bytes query.now.texts.now ≢ [] → input.new ≡ input.old }
{
    match prepared {
        Prepared::Ready(parser) => write_by_parser(alloc, files, input, output, &parser, query),
        Prepared::Refused(line) => write_request_line(output, line),
    }
}

// Writes the lines of the records of texts, made by a parser.
fn write_by_parser<'a, O: Opener, I: Source, W: Sink>(
    alloc: Global,
    files: &O,
    input: &mut I,
    output: &mut W,
    parser: &RecordParser<'_>,
    query: &RecordsQuery<'a>,
) -> Result<u8, RequestFault<'a>>
    requires input_works { I.failed input.old ≡ false }
    requires output_works { W.failed output.old ≡ false }
    ensures leads { (file : List ℕ) → IsRecordParserOf file parser.now → RecordsOutcome
        (parse_task parser.now.options parser.now.printing) file (map string_bytes query.now.texts.now) query.now.end
        query.now.filter (O.file_at files.now) (I.left input.old) (W.written output.old) (W.written output.new)
        (plain_result result) }
    ensures ends { EndsRecords (O.file_at files.now) (map string_bytes query.now.texts.now) (I.failed input.new)
        (W.failed output.new) (I.fault_kind input.new) (W.fault_kind output.new) result }
    ensures unread { map string_bytes query.now.texts.now ≢ [] → input.new ≡ input.old }
{
    let mut session = parser.session(alloc);
    let ended = write_records(alloc, files, input, output, &mut session, query);
    status_or_fault(ended, input.fault_kind(), output.fault_kind())
}

// The exit status for the worst outcome of records, or the fault that ended them. The kinds are those of the errors of
// the input and the output.
fn status_or_fault<'a>(
    ended: Result<RecordOutcome, RecordsFault<'a>>,
    input: Option<ErrorKind>,
    output: Option<ErrorKind>,
) -> Result<u8, RequestFault<'a>>
    ensures plain { plain_result result ≡ records_result outcome_status ended.entry }
    ensures fault { HasFaultOfRecords ended.entry input output result }
{
    match ended {
        Ok(worst) => Ok(status_of(worst).code()),
        Err(RecordsFault::Text { name, kind }) => Err(RequestFault::Device {
            stream: Stream::File(name),
            kind,
        }),
        Err(RecordsFault::Input) => Err(RequestFault::at(Stream::Input, input)),
        Err(RecordsFault::Output) => Err(RequestFault::at(Stream::Output, output)),
        Err(RecordsFault::Memory) => Err(RequestFault::Memory),
    }
}

// The exit status for the worst outcome of records.
fn status_of(worst: RecordOutcome) -> Status
    ensures { status_code result ≡ outcome_status worst }
{
    match worst {
        RecordOutcome::Matches => Status::Done,
        RecordOutcome::Differs => Status::Failed,
        RecordOutcome::Refused => Status::Limit,
    }
}
