//! Explains the records of texts: writes the messages, and returns what standard error gets.
ghost use Rattle.std.specs.Prelude.{◌≡◌, ◌≢◌, ◌⊎◌, ◌↔◌, ◌++◌, ◌∷◌, [], true, false, All, IfErr, IsErrOf, map, string_bytes};
ghost use Rattle.peg_explain_records.specs.Questions.{question_of};
ghost use Rattle.peg_io.specs.NamedFile.{is_readable};
ghost use Rattle.peg_tool.specs.Explanations.{findings_of};
ghost use Rattle.peg_tool.specs.Faults.{IsFaultAmong, IsFaultAt, plain_result, record_streams, standard_input, standard_output};
ghost use Rattle.peg_tool.specs.RecordFaults.{EndsRecords, HasFaultOfRecords};
ghost use Rattle.peg_tool.specs.RecordResults.{RecordsExplanation, records_result};

use crate::explaining::findings_of;
use crate::fault::{RequestFault, Stream};
use crate::program::ProgramFault;
use crate::report::Findings;
use peg_explain_files::Ended;
use peg_explain_records::{ExplainRecordsQuery, RecordsFault, explain_records};
use peg_io::{Opener, Sink, Source};
use std::alloc::Global;
use std::io::ErrorKind;

/// Explains each record of texts. The messages of the records of a block are written before the next block is read. A
/// grammar file that can't be opened or read has a line for standard error.
pub(crate) fn explain_each_record<'a, O: Opener, I: Source, W: Sink>(
    alloc: Global,
    files: &O,
    input: &mut I,
    output: &mut W,
    query: &ExplainRecordsQuery<'a>,
) -> Result<Findings, RequestFault<'a>>
    requires input_works { I.failed input.old ≡ false }
    requires output_works { W.failed output.old ≡ false }
    ensures leads { RecordsExplanation (question_of query.now) (O.file_at files.now) (I.left input.old)
        (W.written output.old) (W.written output.new) (plain_result result) }
    ensures unread { map string_bytes query.now.texts.now ≢ [] → input.new ≡ input.old }
    ensures device_fault { All (λ text. is_readable (O.file_at files.now text) ≡ true) (map string_bytes query.now.texts.now)
        → (IsErrOf (plain_result result) ProgramFault.File
        ↔ ((I.failed input.new ≡ true) ⊎ (W.failed output.new ≡ true))) }
    ensures read_fault { I.failed input.new ≡ true → IsErrOf (plain_result result) ProgramFault.File }
    ensures write_fault { W.failed output.new ≡ true → IsErrOf (plain_result result) ProgramFault.File }
    ensures input { I.failed input.new ≡ true → IfErr result (IsFaultAt standard_input (I.fault_kind input.new)) }
    ensures output { W.failed output.new ≡ true → IfErr result (IsFaultAt standard_output (W.fault_kind output.new)) }
    ensures cause { W.failed output.new ≡ false
        → IfErr result (IsFaultAmong (record_streams (map string_bytes query.now.texts.now))) }
    ensures named { IfErr result
        (IsFaultAmong (record_streams (map string_bytes query.now.texts.now) ++ standard_output ∷ [])) }
{
    explain_to_end(alloc, files, input, output, query)
}

// Explains each record of texts, and says how that ends.
fn explain_to_end<'a, O: Opener, I: Source, W: Sink>(
    alloc: Global,
    files: &O,
    input: &mut I,
    output: &mut W,
    query: &ExplainRecordsQuery<'a>,
) -> Result<Findings, RequestFault<'a>>
    requires input_works { I.failed input.old ≡ false }
    requires output_works { W.failed output.old ≡ false }
    ensures leads { RecordsExplanation (question_of query.now) (O.file_at files.now) (I.left input.old)
        (W.written output.old) (W.written output.new) (plain_result result) }
    ensures ends { EndsRecords (O.file_at files.now) (map string_bytes query.now.texts.now) (I.failed input.new)
        (W.failed output.new) (I.fault_kind input.new) (W.fault_kind output.new) result }
    ensures unread { map string_bytes query.now.texts.now ≢ [] → input.new ≡ input.old }
{
    let ended = explain_records(alloc, files, input, output, query);
    findings_or_fault(ended, input.fault_kind(), output.fault_kind())
}

// What is found in records, or the fault that ended them. The kinds are those of the errors of the input and the output.
fn findings_or_fault<'a>(
    ended: Result<Ended, RecordsFault<'a>>,
    input: Option<ErrorKind>,
    output: Option<ErrorKind>,
) -> Result<Findings, RequestFault<'a>>
    ensures plain { plain_result result ≡ records_result findings_of ended.entry }
    ensures fault { HasFaultOfRecords ended.entry input output result }
{
    match ended {
        Ok(ended) => Ok(findings_of(ended)),
        Err(RecordsFault::Text { name, kind }) => Err(RequestFault::Device {
            stream: Stream::File(name),
            kind,
        }),
        Err(RecordsFault::Input) => Err(RequestFault::at(Stream::Input, input)),
        Err(RecordsFault::Output) => Err(RequestFault::at(Stream::Output, output)),
        Err(RecordsFault::Memory) => Err(RequestFault::Memory),
    }
}
