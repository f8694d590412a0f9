//! Prints warnings about a grammar as messages for people: writes them, and returns what standard error gets.
ghost use Rattle.std.specs.Prelude.{◌≡◌, ◌↔◌, true, false, IfErr, IsErrOf};
ghost use Rattle.std.specs.Io.KnownBytes.{Keeps};
ghost use Rattle.peg_lint_files.specs.LintQuestions.{question_of};
ghost use Rattle.peg_tool.specs.Faults.{IsFaultAt, plain_result, standard_output};
ghost use Rattle.peg_tool.specs.LintOutcome.{LintOutcome};

use crate::explaining::findings_of;
use crate::fault::{RequestFault, Stream};
use crate::program::ProgramFault;
use crate::report::Findings;
use peg_explain_files::ExplainFault;
use peg_io::{Opener, Sink};
use peg_lint_files::{LintQuery, write_warnings};
use std::alloc::Global;

/// Writes the warnings about a grammar file as messages, all at the end. The only fault of a device is that of the
/// output.
pub(crate) fn lint<'a, O: Opener, W: Sink>(
    alloc: Global,
    files: &O,
    output: &mut W,
    query: &LintQuery<'_>,
) -> Result<Findings, RequestFault<'a>>
    requires { W.failed output.old ≡ false }
    ensures leads { LintOutcome (question_of query.now) (O.file_at files.now) (W.written output.old)
        (W.written output.new) (plain_result result) }
    ensures fault { IsErrOf (plain_result result) ProgramFault.File ↔ (W.failed output.new ≡ true) }
    ensures memory { IsErrOf (plain_result result) ProgramFault.Memory
        → Keeps (W.written output.old) (W.written output.new) }
    ensures named { IfErr result (IsFaultAt standard_output (W.fault_kind output.new)) }
{
    match write_warnings(alloc, files, output, query) {
        Ok(ended) => Ok(findings_of(ended)),
        Err(ExplainFault::Write) => Err(RequestFault::at(Stream::Output, output.fault_kind())),
        Err(ExplainFault::Memory) => Err(RequestFault::Memory),
    }
}
