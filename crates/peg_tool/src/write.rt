//! Writes the line of a request's reply, or makes the fault that ends a request without one.
ghost use Rattle.std.specs.Prelude.{◌≡◌, ◌⊎◌, ◌↔◌, true, false, IfErr, IsErrOf, Ok};
ghost use Rattle.std.specs.Io.KnownBytes.{Keeps};
ghost use Rattle.peg_tool.specs.Faults.{IsFaultAt, plain_result, standard_output, stream_name};
ghost use Rattle.peg_tool.specs.WritesRequest.{WritesRequestReply};

use crate::fault::{RequestFault, Stream};
use crate::program::ProgramFault;
use peg_io::{ReadFault, Sink};
use peg_json::Line;
use peg_replies::write_line;
use std::io::ErrorKind;

/// Writes the line of a request and returns its exit status. Without a line nothing is written. A failed read is a fault
/// of `source`, with an error of this kind.
pub(crate) fn write_request_reply<'a, W: Sink>(
    output: &mut W,
    reply: Result<Line, ReadFault>,
    source: Stream<'a>,
    kind: Option<ErrorKind>,
) -> Result<u8, RequestFault<'a>>
    requires { W.failed output.old ≡ false }
    ensures ends { WritesRequestReply reply (W.written output.old) (W.written output.new) (plain_result result) }
    ensures fault { IsErrOf (plain_result result) ProgramFault.File
        ↔ (IsErrOf reply ReadFault.Device ⊎ (W.failed output.new ≡ true)) }
    ensures memory { IsErrOf (plain_result result) ProgramFault.Memory
        → Keeps (W.written output.old) (W.written output.new) }
    ensures read { IsErrOf reply ReadFault.Device → IfErr result (IsFaultAt (stream_name source.entry) kind) }
    ensures written { W.failed output.new ≡ true → IfErr result (IsFaultAt standard_output (W.fault_kind output.new)) }
{
    match reply {
        Ok(line) => write_request_line(output, line),
        Err(ReadFault::Device) => Err(RequestFault::at(source, kind)),
        Err(ReadFault::Memory) => Err(RequestFault::Memory),
    }
}

/// Writes the line of a request and returns its exit status.
pub(crate) fn write_request_line<'a, W: Sink>(
    output: &mut W,
    line: Line,
) -> Result<u8, RequestFault<'a>>
    requires { W.failed output.old ≡ false }
    ensures ends { WritesRequestReply (Ok line) (W.written output.old) (W.written output.new) (plain_result result) }
    ensures fault { IsErrOf (plain_result result) ProgramFault.File ↔ (W.failed output.new ≡ true) }
    ensures named { IfErr result (IsFaultAt standard_output (W.fault_kind output.new)) }
{
    match write_line(output, line) {
        Ok(status) => Ok(status),
        Err(_) => Err(RequestFault::at(Stream::Output, output.fault_kind())),
    }
}
