//! Runs the program for its parsed arguments, and the faults that end it without an answer.
ghost use Rattle.std.specs.Prelude.{◌≡◌, ◌⊎◌, ◌↔◌, ◌++◌, ◌∷◌, [], codes, ℕ, true, false, All, List, IfErr, IfSome, IsErrOf};
ghost use Rattle.std.specs.Prelude.{None, is_err, map, string_bytes};
ghost use Rattle.std.specs.Io.KnownBytes.{Keeps};
ghost use Rattle.std.specs.Result.{result_err};
ghost use Rattle.peg_io.specs.NamedFile.{IsMissing, bytes_of, is_readable};
ghost use Rattle.peg_messages.specs.FileNames.{shown_name};
ghost use Rattle.peg_parser.specs.Parser.{start_named};
ghost use Rattle.peg_replies.specs.Commands.{task_of};
ghost use Rattle.peg_tool.specs.CommandOutcome.{CommandOutcome, IsHelp, RequestOutcome, WritesOrFails};
ghost use Rattle.peg_tool.specs.Faults.{IsFaultAmong, IsFaultAt, NamesCause, plain_result, standard_input};
ghost use Rattle.peg_tool.specs.Faults.{standard_output, stream_names};
ghost use Rattle.peg_replies.specs.Replies.{IsPrinted, IsPrintedJoined};
ghost use Rattle.peg_tool.specs.RequestContract.{EndsAs};
ghost use Rattle.peg_tool.specs.Requests.{EndsWithInput, requested};
ghost use Rattle.peg_tool.specs.CoverageOutcome.{CoverageOutcome};
ghost use Rattle.peg_replies.specs.Task.{HasText};

use crate::covering::{coverage_reply, write_coverage};
use crate::covering_records::on_record_coverage;
use crate::explaining::explain;
use crate::fault::{RequestFault, Stream};
use crate::linting::lint;
use crate::record_messages::explain_each_record;
use crate::records::on_records;
use crate::report::{Findings, Report};
use crate::request::Request;
use crate::testing::test;
use crate::write::write_request_reply;
use peg_cli::Words;
use peg_coverage::RequiredMatch;
use peg_io::{Device, Opener, Sink, Source, write_all_bytes};
use peg_json::Status;
use peg_parser::ParseOptions;
use peg_replies::{Command, joined_line, reply_line};
use std::alloc::{AllocError, Global};
use std::io;
use std::io::ErrorKind;
use thiserror::Error;

/// Why the program ends without an answer. The program prints its text on standard error.
#[derive(Clone, Copy, Debug, PartialEq, Eq, Error)]
pub enum ProgramFault {
    /// A file can't be opened or read, or the output can't be written.
    #[error("pegtool: file fault")]
    File,
    /// Out of memory.
    #[error("pegtool: out of memory")]
    Memory,
}

impl ProgramFault {
    /// Returns the exit status of the program.
    pub fn status(self) -> u8
        ensures file { self ≡ ProgramFault.File → result ≡ 4 }
        ensures memory { self ≡ ProgramFault.Memory → result ≡ 5 }
    {
        let status = match self {
            ProgramFault::File => Status::File,
            ProgramFault::Memory => Status::Memory,
        };
        status.code()
    }

    /// Returns the line that the program prints on standard error.
    pub(crate) fn message(self) -> &'static str
        ensures file { self ≡ ProgramFault.File → result.now ≡ codes "pegtool: file fault" ++ 10 ∷ [] }
        ensures memory { self ≡ ProgramFault.Memory → result.now ≡ codes "pegtool: out of memory" ++ 10 ∷ [] }
    {
        match self {
            ProgramFault::File => "pegtool: file fault\n",
            ProgramFault::Memory => "pegtool: out of memory\n",
        }
    }
}

impl From<AllocError> for ProgramFault {
    ghost use Rattle.std.specs.Prelude.{◌≡◌};
    ghost use Rattle.peg_tool.specs.declared.program.ProgramFault.TheVariants.{Memory};

    ghost from_gives = { λ _ fault. fault ≡ Memory };

    fn from(_error: AllocError) -> ProgramFault {
        ProgramFault::Memory
    }
}

/// Runs the program for its parsed arguments, over files by name, an input and an output, and returns the exit status.
/// The grammar file is opened first, then the text; both are opened before either is read. Where there are several
/// texts, each is opened and read in turn after the grammar.
///
/// Returns `File` if a file can't be opened or read, or if the output can't be written. Returns `Memory`, with nothing
/// written, if an allocation fails. For an explanation of texts, a file that can't be opened or read is status 4, and
/// the other texts are read; `run_program` names it. The messages of the texts before a failed allocation are written.
/// For a test of texts, a file or a folder is reported in the same way, and nothing is written before the end. So is
/// the file of messages about a grammar. The lines of records are written as they are read, so that those of the first
/// records are written if an allocation fails. No device may have failed before.
pub fn run_words<O: Opener, I: Source, W: Sink>(
    alloc: Global,
    files: &O,
    input: &mut I,
    output: &mut W,
    words: &Words,
) -> Result<u8, ProgramFault>
    requires input_works { I.failed input.old ≡ false }
    requires output_works { W.failed output.old ≡ false }
    ensures leads { CommandOutcome (requested words.now) (O.file_at files.now) (I.left input.old) (W.written output.old)
        (W.written output.new) result }
    ensures ends { EndsAs (requested words.now) (O.file_at files.now) (result_err result) (I.failed input.new)
        (W.failed output.new) (input.new ≡ input.old) (output.new ≡ output.old) (W.written output.old)
        (W.written output.new) }
{
    match run_request(alloc, files, input, output, words) {
        Ok(report) => Ok(report.status()),
        Err(fault) => Err(fault.plain()),
    }
}

/// Finds out what the arguments request, and does it. A fault of a device says which one it is, with the kind of its
/// error.
pub(crate) fn run_request<'a, O: Opener, I: Source, W: Sink>(
    alloc: Global,
    files: &O,
    input: &mut I,
    output: &mut W,
    words: &'a Words,
) -> Result<Report, RequestFault<'a>>
    requires input_works { I.failed input.old ≡ false }
    requires output_works { W.failed output.old ≡ false }
    ensures leads { RequestOutcome (requested words.now) (O.file_at files.now) (I.left input.old) (W.written output.old)
        (W.written output.new) (plain_result result) }
    ensures ends { EndsAs (requested words.now) (O.file_at files.now) (result_err (plain_result result))
        (I.failed input.new) (W.failed output.new) (input.new ≡ input.old) (output.new ≡ output.old)
        (W.written output.old) (W.written output.new) }

    // Which stream a fault names.
    ensures named { IfErr result (IsFaultAmong (stream_names (requested words.now))) }
    ensures cause { W.failed output.new ≡ false → IfErr result (NamesCause (requested words.now) (O.file_at files.now)) }
    ensures output { W.failed output.new ≡ true → IfErr result (IsFaultAt standard_output (W.fault_kind output.new)) }
    ensures input { EndsWithInput (requested words.now) → I.failed input.new ≡ true
        → IfErr result (IsFaultAt standard_input (I.fault_kind input.new)) }
{
    match Request::from_words(words) {
        Request::Joined => Ok(Report::Done(on_input(alloc, input, output)?)),
        Request::Help { text } => Ok(Report::Done(help(output, text)?)),
        Request::OnFile { g, command } => {
            Ok(Report::Done(on_file(alloc, files, output, g, &command)?))
        }
        Request::LintMessages { query } => {
            Ok(Report::Found(lint(alloc, files, output, &query)?))
        }
        Request::OnFiles { g, t, command } => {
            Ok(Report::Done(on_files(alloc, files, output, g, t, &command)?))
        }
        Request::Cover {
            g,
            texts,
            options,
            needed,
        } => { Ok(Report::Found(on_texts(alloc, files, output, g, texts, &options, needed)?)) }
        Request::CoverRecords { g, query } => {
            Ok(Report::Found(on_record_coverage(alloc, files, input, output, g, &query)?))
        }
        Request::Explain { query, printing } => {
            Ok(Report::Found(explain(alloc, files, input, output, &query, printing)?))
        }
        Request::ExplainRecords { query } => {
            Ok(Report::Found(explain_each_record(alloc, files, input, output, &query)?))
        }
        Request::Test { query } => Ok(Report::Found(test(alloc, files, output, &query)?)),
        Request::Records { g, parse } => {
            Ok(Report::Done(on_records(alloc, files, input, output, g, &parse)?))
        }
    }
}

fn help<'a, W: Sink>(output: &mut W, text: &str) -> Result<u8, RequestFault<'a>>
    requires { W.failed output.old ≡ false }
    ensures help { WritesOrFails (IsHelp text.now) (W.written output.old) (W.written output.new) (plain_result result) }
    ensures fault { IsErrOf (plain_result result) ProgramFault.File ↔ (W.failed output.new ≡ true) }
    ensures named { IfErr result (IsFaultAt standard_output (W.fault_kind output.new)) }
{
    if text.is_empty() {
        return Ok(Status::Done.code());
    }
    match write_all_bytes(output, text.as_bytes()) {
        Ok(()) => Ok(Status::Done.code()),
        Err(_) => Err(RequestFault::at(Stream::Output, output.fault_kind())),
    }
}

// Parses a text by a grammar file, both from one input.
fn on_input<'a, I: Source, W: Sink>(
    alloc: Global,
    input: &mut I,
    output: &mut W,
) -> Result<u8, RequestFault<'a>>
    requires input_works { I.failed input.old ≡ false }
    requires output_works { W.failed output.old ≡ false }
    ensures leads { IfSome (I.left input.old) (λ bytes. WritesOrFails (IsPrintedJoined bytes) (W.written output.old)
        (W.written output.new) (plain_result result)) }
    ensures device_fault { IsErrOf (plain_result result) ProgramFault.File
        ↔ ((I.failed input.new ≡ true) ⊎ (W.failed output.new ≡ true)) }
    ensures memory { IsErrOf (plain_result result) ProgramFault.Memory
        → Keeps (W.written output.old) (W.written output.new) }
    ensures input { I.failed input.new ≡ true → IfErr result (IsFaultAt standard_input (I.fault_kind input.new)) }
    ensures output { W.failed output.new ≡ true → IfErr result (IsFaultAt standard_output (W.fault_kind output.new)) }
    ensures named { IfErr result (IsFaultAmong (standard_input ∷ standard_output ∷ [])) }
{
    let reply = joined_line(alloc, input);
    write_request_reply(output, reply, Stream::Input, input.fault_kind())
}

// Runs a command on the grammar file with this name.
fn on_file<'a, O: Opener, W: Sink>(
    alloc: Global,
    files: &O,
    output: &mut W,
    g: &'a str,
    command: &Command<'_>,
) -> Result<u8, RequestFault<'a>>
    requires works { W.failed output.old ≡ false }
    requires alone { ¬ HasText (task_of command.now) }
    ensures leads { IfSome (bytes_of (O.file_at files.now g.now)) (λ file. (text : List ℕ)
        → WritesOrFails (IsPrinted (task_of command.now) file text) (W.written output.old)
        (W.written output.new) (plain_result result)) }
    ensures no_grammar { IsMissing (O.file_at files.now g.now)
        → IsErrOf (plain_result result) ProgramFault.File × (output.new ≡ output.old) }
    ensures device_fault { is_readable (O.file_at files.now g.now) ≡ true
        → (IsErrOf (plain_result result) ProgramFault.File ↔ (W.failed output.new ≡ true)) }
    ensures write_fault { W.failed output.new ≡ true → IsErrOf (plain_result result) ProgramFault.File }
    ensures memory { IsErrOf (plain_result result) ProgramFault.Memory
        → Keeps (W.written output.old) (W.written output.new) }
    ensures output { W.failed output.new ≡ true → IfErr result (IsFaultAt standard_output (W.fault_kind output.new)) }
    ensures cause { W.failed output.new ≡ false → IfErr result (IsFaultAt (shown_name g.now) None) }
    ensures named { IfErr result (IsFaultAmong (shown_name g.now ∷ standard_output ∷ [])) }
{
    let mut grammar = match files.open(g) {
        Ok(file) => file,
        Err(fault) => return Err(RequestFault::of_file(g, fault)),
    };
    let mut text = Device::new(io::empty());
    let reply = reply_line(alloc, &mut grammar, &mut text, command);
    write_request_reply(output, reply, Stream::File(g), grammar.fault_kind())
}

// Runs a command on the grammar file and the text with these names. Both are opened before either is read.
fn on_files<'a, O: Opener, W: Sink>(
    alloc: Global,
    files: &O,
    output: &mut W,
    g: &'a str,
    t: &'a str,
    command: &Command<'_>,
) -> Result<u8, RequestFault<'a>>
    requires { W.failed output.old ≡ false }
    ensures leads { IfSome (bytes_of (O.file_at files.now g.now)) (λ file. IfSome (bytes_of (O.file_at files.now t.now))
        (λ text. WritesOrFails (IsPrinted (task_of command.now) file text) (W.written output.old)
        (W.written output.new) (plain_result result))) }
    ensures no_grammar { IsMissing (O.file_at files.now g.now)
        → IsErrOf (plain_result result) ProgramFault.File × (output.new ≡ output.old) }
    ensures no_text { IsMissing (O.file_at files.now t.now)
        → (is_err (plain_result result) ≡ true) × (output.new ≡ output.old) }
    ensures device_fault { is_readable (O.file_at files.now g.now) ≡ true
        → is_readable (O.file_at files.now t.now) ≡ true
        → (IsErrOf (plain_result result) ProgramFault.File ↔ (W.failed output.new ≡ true)) }
    ensures write_fault { W.failed output.new ≡ true → IsErrOf (plain_result result) ProgramFault.File }
    ensures memory { IsErrOf (plain_result result) ProgramFault.Memory
        → Keeps (W.written output.old) (W.written output.new) }
    ensures output { W.failed output.new ≡ true → IfErr result (IsFaultAt standard_output (W.fault_kind output.new)) }
    ensures missing { IsMissing (O.file_at files.now g.now) → IfErr result (IsFaultAt (shown_name g.now) None) }
    ensures of_text { W.failed output.new ≡ false → is_readable (O.file_at files.now g.now) ≡ true
        → IfErr result (IsFaultAt (shown_name t.now) None) }
    ensures of_grammar { W.failed output.new ≡ false → is_readable (O.file_at files.now t.now) ≡ true
        → IfErr result (IsFaultAt (shown_name g.now) None) }
    ensures named { IfErr result (IsFaultAmong (shown_name g.now ∷ shown_name t.now ∷ standard_output ∷ [])) }
{
    let mut grammar = match files.open(g) {
        Ok(file) => file,
        Err(fault) => return Err(RequestFault::of_file(g, fault)),
    };
    let mut text = match files.open(t) {
        Ok(file) => file,
        Err(fault) => return Err(RequestFault::of_file(t, fault)),
    };
    let reply = reply_line(alloc, &mut grammar, &mut text, command);
    match grammar.fault_kind() {
        None => write_request_reply(output, reply, Stream::File(t), text.fault_kind()),
        kind => write_request_reply(output, reply, Stream::File(g), kind),
    }
}

// Prints what the texts with these names use of the grammar file with a name, and returns the exit status and a line for
// each stopped text. The texts are opened after the grammar is read.
fn on_texts<'a, O: Opener, W: Sink>(
    alloc: Global,
    files: &O,
    output: &mut W,
    g: &'a str,
    texts: &'a [String],
    options: &ParseOptions<'_>,
    needed: RequiredMatch,
) -> Result<Findings, RequestFault<'a>>
    requires { W.failed output.old ≡ false }
    ensures leads { CoverageOutcome (start_named options.now) options.now.memo options.now.steps needed g.now
        (map string_bytes texts.now) (O.file_at files.now) (W.written output.old) (W.written output.new)
        (plain_result result) }
    ensures no_grammar { IsMissing (O.file_at files.now g.now)
        → IsErrOf (plain_result result) ProgramFault.File × (output.new ≡ output.old) }
    ensures device_fault { is_readable (O.file_at files.now g.now) ≡ true
        → All (λ text. is_readable (O.file_at files.now text) ≡ true) (map string_bytes texts.now)
        → (IsErrOf (plain_result result) ProgramFault.File ↔ (W.failed output.new ≡ true)) }
    ensures write_fault { W.failed output.new ≡ true → IsErrOf (plain_result result) ProgramFault.File }
    ensures memory { IsErrOf (plain_result result) ProgramFault.Memory
        → Keeps (W.written output.old) (W.written output.new) }
    ensures output { W.failed output.new ≡ true → IfErr result (IsFaultAt standard_output (W.fault_kind output.new)) }
    ensures missing { IsMissing (O.file_at files.now g.now) → IfErr result (IsFaultAt (shown_name g.now) None) }
    ensures named { IfErr result
        (IsFaultAmong (shown_name g.now ∷ map shown_name (map string_bytes texts.now) ++ standard_output ∷ [])) }
{
    let mut grammar = match files.open(g) {
        Ok(file) => file,
        Err(fault) => return Err(RequestFault::of_file(g, fault)),
    };
    match coverage_reply(alloc, files, &mut grammar, g, texts, options, needed) {
        Ok(reply) => write_coverage(output, reply),
        Err(fault) => Err(fault),
    }
}
