//! Explains texts: writes the messages, and returns what standard error gets.
ghost use Rattle.std.specs.Prelude.{◌≡◌, ◌↔◌, true, false, IfErr, IsErrOf};
ghost use Rattle.peg_explain_files.specs.Names.{IsInput};
ghost use Rattle.peg_explain_files.specs.Questions.{question_of};
ghost use Rattle.peg_tool.specs.Explanations.{ExplanationOutcome, findings_of, verdict_status};
ghost use Rattle.peg_tool.specs.Faults.{IsFaultAt, plain_result, standard_output};

use crate::fault::{RequestFault, Stream};
use crate::program::ProgramFault;
use crate::report::Findings;
use peg_explain_files::{Ended, ExplainFault, Printing, Query, Verdict, explain_files};
use peg_io::{Opener, Sink, Source};
use peg_json::Status;
use std::alloc::Global;

/// Explains texts and writes each message before the next text is opened. If an allocation fails, the messages of the
/// first texts are written. The only fault of a device is that of the output.
pub(crate) fn explain<'a, O: Opener, I: Source, W: Sink>(
    alloc: Global,
    files: &O,
    input: &mut I,
    output: &mut W,
    query: &Query<'_>,
    printing: Printing,
) -> Result<Findings, RequestFault<'a>>
    requires input_works { I.failed input.old ≡ false }
    requires output_works { W.failed output.old ≡ false }
    ensures leads { ExplanationOutcome (question_of query.now) printing (O.file_at files.now) (I.left input.old)
        (W.written output.old) (W.written output.new) (plain_result result) }
    ensures unread { ¬ IsInput (question_of query.now).list → input.new ≡ input.old }
    ensures fault { IsErrOf (plain_result result) ProgramFault.File ↔ (W.failed output.new ≡ true) }
    ensures named { IfErr result (IsFaultAt standard_output (W.fault_kind output.new)) }
{
    match explain_files(alloc, files, input, output, query, printing) {
        Ok(ended) => Ok(findings_of(ended)),
        Err(ExplainFault::Write) => Err(RequestFault::at(Stream::Output, output.fault_kind())),
        Err(ExplainFault::Memory) => Err(RequestFault::Memory),
    }
}

/// Returns the exit status and the lines for standard error of an explanation or a test.
pub(crate) fn findings_of(ended: Ended) -> Findings
    ensures { result ≡ findings_of ended }
{
    let Ended { faults, verdict } = ended;
    let status = status_of(verdict).code();
    Findings { status, faults }
}

// The exit status of a verdict.
fn status_of(verdict: Verdict) -> Status
    ensures { result ≡ verdict_status verdict }
{
    match verdict {
        Verdict::Matches => Status::Done,
        Verdict::Differs => Status::Failed,
        Verdict::OverLimit => Status::Limit,
        Verdict::Unreadable => Status::File,
        Verdict::NoSuchStart => Status::Usage,
        Verdict::Refused => Status::Refused,
    }
}
