//! The program from its arguments to its exit.
ghost use Rattle.std.specs.Prelude.{◌≡◌, ◌≢◌, ℕ, ◌<◌, ◌≤◌, true, false, [], List, length, drop, Result, Ok, Err};
ghost use Rattle.std.specs.Prelude.{IfErr, IfOk, IsErrAnd, Some};
ghost use Rattle.std.specs.Vec.Iter.{into_iter_items};
ghost use Rattle.peg_cli.specs.Words.{IsAsking};
ghost use Rattle.peg_tool.specs.Exits.{IsArgsFault, IsDeviceExit, IsExitAmong, IsExitOf, IsExitOfFault, IsExitOfCause};
ghost use Rattle.peg_tool.specs.Exits.{IsExitOfResult, exit_fault, exit_message, exit_status, report_exit};
ghost use Rattle.peg_tool.specs.Exits.{words_exit};
ghost use Rattle.peg_tool.specs.Faults.{standard_input, standard_output, stream_name, stream_names};
ghost use Rattle.peg_tool.specs.RequestContract.{EndsAs};
ghost use Rattle.peg_tool.specs.Requests.{EndsWithInput, requested};

use crate::fault::{RequestFault, Stream, device_message};
use crate::program::{ProgramFault, run_request};
use crate::report::{Findings, Report};
use peg_cli::{Words, WordsFault, read_words};
use peg_io::{Opener, Sink, Source};
use peg_json::Status;
use std::alloc::{AllocError, Global};
use std::env::Args;
use std::io;
use std::io::ErrorKind;

// The message for arguments that are not UTF-8.
const NOT_UTF8: &str = "error: a word isn't UTF-8\n\nFor more information, try '--help'.\n";

/// How the program ends.
#[derive(Debug, PartialEq, Eq, Drop)]
pub enum Exit {
    /// The output is written, and this is the exit status.
    Done { status: u8 },
    /// The output is written, and this is the exit status. `faults` has a line for each file that can't be opened or
    /// read, or for each text or record whose parse was stopped.
    Reported { status: u8, faults: String },
    /// The arguments are not a valid command line. `text` says what is wrong.
    Usage { text: String },
    /// A file can't be opened or read, or the output can't be written. `text` has the line of that fault, and a line
    /// that names the file or the stream, with the reason.
    Device { text: String },
    /// An allocation failed. Or a device failed, and there was no memory for its second line.
    Fault { fault: ProgramFault },
}

impl Exit {
    /// Returns the exit status of the program.
    pub fn status(&self) -> u8
        ensures { result ≡ exit_status self.now }
    {
        match self {
            Exit::Done { status } | Exit::Reported { status, .. } => *status,
            Exit::Usage { .. } => Status::Usage.code(),
            Exit::Device { .. } => Status::File.code(),
            Exit::Fault { fault } => fault.status(),
        }
    }

    /// Returns the text that the program prints on standard error; it may be empty.
    pub fn message(&self) -> &str
        ensures { result.now ≡ exit_message self.now }
    {
        match self {
            Exit::Done { .. } => "",
            Exit::Reported { faults, .. } => faults,
            Exit::Usage { text } | Exit::Device { text } => text,
            Exit::Fault { fault } => fault.message(),
        }
    }

    /// Returns the text that the program prints on standard error after it wrote to this output; it may be empty. It is
    /// empty if the reader of the output is gone, as in `pegtool parse G T | head -c 1`: the status alone reports that.
    pub fn message_after<W: Sink>(&self, output: &W) -> &str
        ensures unread { W.fault_kind output.now ≡ Some ErrorKind.BrokenPipe → result.now ≡ [] }
        ensures message { W.fault_kind output.now ≢ Some ErrorKind.BrokenPipe → result.now ≡ exit_message self.now }
    {
        if output.fault_kind() == Some(ErrorKind::BrokenPipe) {
            ""
        } else {
            self.message()
        }
    }

    // The exit of a request with a report or a fault.
    fn from_result(alloc: Global, ended: Result<Report, RequestFault<'_>>) -> Exit
        ensures { IsExitOfResult ended.entry result }
    {
        match ended {
            Ok(report) => Exit::from_report(report),
            Err(fault) => Exit::from_fault(alloc, fault),
        }
    }

    // The exit for a report.
    fn from_report(report: Report) -> Exit
        ensures { result ≡ report_exit report }
    {
        match report {
            Report::Done(status) => Exit::Done { status },
            Report::Found(Findings { status, faults }) => Exit::Reported { status, faults },
        }
    }

    // The exit for a fault.
    fn from_fault(alloc: Global, fault: RequestFault<'_>) -> Exit
        ensures { IsExitOfFault fault.entry result }
    {
        match fault {
            RequestFault::Device { stream, kind } => Exit::from_device(alloc, stream, kind),
            RequestFault::Memory => Exit::Fault {
                fault: ProgramFault::Memory,
            },
        }
    }

    // The exit for a device that failed with an error of this kind. Without memory it has one line alone.
    fn from_device(alloc: Global, stream: Stream<'_>, kind: ErrorKind) -> Exit
        ensures { IsDeviceExit (stream_name stream.entry) (Some kind) result }
    {
        match device_message(alloc, stream, kind) {
            Ok(text) => Exit::Device { text },
            Err(_) => Exit::Fault {
                fault: ProgramFault::File,
            },
        }
    }
}

/// Parses the arguments of the program. The first one, its name, is left out. Arguments that aren't UTF-8 are a usage
/// error.
pub fn read_args(alloc: Global, args: io::Result<Args>) -> Result<Words, WordsFault>
    ensures joined { IfOk args (λ all. length (into_iter_items all) ≤ 1
        → IfOk result (λ words. words ≡ Words.Joined)) }
    ensures asking { IfOk args (λ all. 1 < length (into_iter_items all) → IfOk result IsAsking) }
    ensures unread { IfErr args (λ error. IsErrAnd result (IsArgsFault error)) }
{
    match args {
        Ok(args) => {
            let words = words_after_name(alloc, args)?;
            read_words(alloc, &words)
        }
        Err(error) => Err(args_fault(alloc, &error)),
    }
}

// The arguments after the program's name.
fn words_after_name(alloc: Global, args: Args) -> Result<Vec<String>, AllocError>
    ensures { IfOk result (λ words. words.items ≡ drop 1 (into_iter_items args)) }
{
    args.skip(1).collect(alloc)
}

// Why there are no arguments.
fn args_fault(alloc: Global, error: &io::Error) -> WordsFault
    ensures { IsArgsFault error.now result }
{
    if error.kind() == ErrorKind::OutOfMemory {
        return WordsFault::Memory;
    }
    match String::from_str(alloc, NOT_UTF8) {
        Ok(text) => WordsFault::Usage { text },
        Err(_) => WordsFault::Memory,
    }
}

/// Runs the program for its arguments, or for the reason why there are none, over files by name, an input and an output.
/// No device may have failed before.
pub fn run_program<O: Opener, I: Source, W: Sink>(
    alloc: Global,
    files: &O,
    input: &mut I,
    output: &mut W,
    words: Result<Words, WordsFault>,
) -> Exit
    requires input_works { I.failed input.old ≡ false }
    requires output_works { W.failed output.old ≡ false }
    ensures runs { IfOk words (λ asked. IsExitOf (requested asked) (O.file_at files.now) (I.left input.old)
        (W.written output.old) (W.written output.new) result) }
    ensures rejected { IfErr words (λ fault. result ≡ words_exit fault) }
    ensures untouched { IfErr words (λ _. (input.new ≡ input.old) × (output.new ≡ output.old)) }
    ensures ends { IfOk words (λ asked. EndsAs (requested asked) (O.file_at files.now) (exit_fault result)
        (I.failed input.new) (W.failed output.new) (input.new ≡ input.old) (output.new ≡ output.old)
        (W.written output.old) (W.written output.new)) }

    // A fault of a device names what failed: standard output or standard input, or else a file of the request.
    ensures output { W.failed output.new ≡ true → IsDeviceExit standard_output (W.fault_kind output.new) result }
    ensures input { IfOk words (λ asked. EndsWithInput (requested asked) → I.failed input.new ≡ true
        → IsDeviceExit standard_input (I.fault_kind input.new) result) }
    ensures cause { IfOk words (λ asked. W.failed output.new ≡ false
        → IsExitOfCause (requested asked) (O.file_at files.now) result) }
    ensures named { IfOk words (λ asked. IsExitAmong (stream_names (requested asked)) result) }
{
    match words {
        Ok(words) => { Exit::from_result(alloc, run_request(alloc, files, input, output, &words)) }
        Err(WordsFault::Usage { text }) => Exit::Usage { text },
        Err(WordsFault::Memory) => Exit::Fault {
            fault: ProgramFault::Memory,
        },
    }
}
