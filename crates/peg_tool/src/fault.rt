//! Why a request has no answer: what could not be opened, read or written, and what the system said of it.
ghost use Rattle.std.specs.Prelude.{◌≡◌, IfOk, None, Some, string_bytes};
ghost use Rattle.peg_messages.specs.FileNames.{shown_name};
ghost use Rattle.peg_tool.specs.CommandOutcome.{open_fault};
ghost use Rattle.peg_tool.specs.Faults.{IsFaultAt, device_message, plain_fault, stream_name};

use crate::program::ProgramFault;
use peg_io::{OpenFault, reason};
use peg_messages::shown_name;
use std::alloc::{AllocError, Global};
use std::io::ErrorKind;

/// A file by its name, or a standard stream.
#[derive(Clone, Copy, Debug, PartialEq, Eq)]
pub(crate) enum Stream<'a> {
    /// The file with this name.
    File(&'a str),
    /// Standard input.
    Input,
    /// Standard output.
    Output,
}

impl Stream<'_> {
    // The name of the stream, as messages show it.
    fn shown(self, alloc: Global) -> Result<String, AllocError>
        ensures { IfOk result (λ name. string_bytes name ≡ stream_name self.entry) }
    {
        match self {
            Stream::File(name) => shown_name(alloc, name.as_bytes()),
            Stream::Input => String::from_str(alloc, "standard input"),
            Stream::Output => String::from_str(alloc, "standard output"),
        }
    }
}

/// Why a request has no exit status of its own.
#[derive(Clone, Copy, Debug, PartialEq, Eq)]
pub(crate) enum RequestFault<'a> {
    /// A file can't be opened or read, or the output can't be written. `kind` is the kind of the system's error.
    Device { stream: Stream<'a>, kind: ErrorKind },
    /// Out of memory.
    Memory,
}

impl<'a> RequestFault<'a> {
    /// Returns the fault of a stream. The kind of the error is `Other` if none is known.
    pub(crate) fn at(stream: Stream<'a>, kind: Option<ErrorKind>) -> RequestFault<'a>
        ensures plain { plain_fault result ≡ ProgramFault.File }
        ensures named { IsFaultAt (stream_name stream.entry) kind result }
    {
        RequestFault::Device {
            stream,
            kind: kind.unwrap_or(ErrorKind::Other),
        }
    }

    /// Returns the fault of a file with this name that could not be opened.
    pub(crate) fn of_file(name: &'a str, fault: OpenFault) -> RequestFault<'a>
        ensures plain { plain_fault result ≡ open_fault fault }
        ensures named { IsFaultAt (shown_name name.now) None result }
    {
        match fault {
            OpenFault::File { kind } => RequestFault::Device {
                stream: Stream::File(name),
                kind,
            },
            OpenFault::Memory => RequestFault::Memory,
        }
    }

    /// Returns the fault without the stream and the reason.
    pub(crate) fn plain(self) -> ProgramFault
        ensures { result ≡ plain_fault self.entry }
    {
        match self {
            RequestFault::Device { .. } => ProgramFault::File,
            RequestFault::Memory => ProgramFault::Memory,
        }
    }
}

impl<'a> From<AllocError> for RequestFault<'a> {
    ghost use Rattle.std.specs.Prelude.{◌≡◌};
    ghost use Rattle.peg_tool.specs.declared.fault.RequestFault.TheVariants.{Memory};

    ghost from_gives = { λ _ fault. fault ≡ Memory };

    fn from(_error: AllocError) -> RequestFault<'a> {
        RequestFault::Memory
    }
}

/// Returns two lines for standard error: that of every fault of a device, and one that names the stream and the reason.
pub(crate) fn device_message(
    alloc: Global,
    stream: Stream<'_>,
    kind: ErrorKind,
) -> Result<String, AllocError>
    ensures { IfOk result (λ text. string_bytes text ≡ device_message (stream_name stream.entry) kind) }
{
    let mut text = String::from_str(alloc, ProgramFault::File.message())?;
    let name = stream.shown(alloc)?;
    text.push_str(&name)?;
    text.push_str(": ")?;
    text.push_str(reason(kind))?;
    text.push_str("\n")?;
    Ok(text)
}
