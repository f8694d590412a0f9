//! Tests texts in folders: writes what is found, and returns what standard error gets.
ghost use Rattle.std.specs.Prelude.{◌≡◌, ◌↔◌, true, false, IfErr, IsErrOf};
ghost use Rattle.std.specs.Io.KnownBytes.{Keeps};
ghost use Rattle.peg_test_files.specs.TestQuestions.{question_of};
ghost use Rattle.peg_tool.specs.Faults.{IsFaultAt, plain_result, standard_output};
ghost use Rattle.peg_tool.specs.TestOutcome.{TestOutcome};

use crate::explaining::findings_of;
use crate::fault::{RequestFault, Stream};
use crate::program::ProgramFault;
use crate::report::Findings;
use peg_explain_files::ExplainFault;
use peg_io::{Opener, Sink};
use peg_test_files::{TestQuery, test_files};
use std::alloc::Global;

/// Tests texts in folders, and writes what is found at the end. The only fault of a device is that of the output.
pub(crate) fn test<'a, O: Opener, W: Sink>(
    alloc: Global,
    files: &O,
    output: &mut W,
    query: &TestQuery<'_>,
) -> Result<Findings, RequestFault<'a>>
    requires { W.failed output.old ≡ false }
    ensures leads { TestOutcome (question_of query.now) (O.file_at files.now) (W.written output.old)
        (W.written output.new) (plain_result result) }
    ensures fault { IsErrOf (plain_result result) ProgramFault.File ↔ (W.failed output.new ≡ true) }
    ensures memory { IsErrOf (plain_result result) ProgramFault.Memory
        → Keeps (W.written output.old) (W.written output.new) }
    ensures named { IfErr result (IsFaultAt standard_output (W.fault_kind output.new)) }
{
    match test_files(alloc, files, output, query) {
        Ok(ended) => Ok(findings_of(ended)),
        Err(ExplainFault::Write) => Err(RequestFault::at(Stream::Output, output.fault_kind())),
        Err(ExplainFault::Memory) => Err(RequestFault::Memory),
    }
}
