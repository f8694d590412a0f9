//! Writes the line of a reply and returns its exit status.
ghost use Rattle.std.specs.Prelude.{◌≡◌, ◌↔◌, true, false, is_err, IfOk, IsErrOf, OnErr, OnOk};
ghost use Rattle.std.specs.Io.KnownBytes.{Appends, Keeps};
ghost use Rattle.peg_io.specs.Transfer.{AppendsProperPrefix};
ghost use Rattle.peg_json.specs.Lines.{line_bytes, rows_text};
ghost use Rattle.peg_tree.specs.FlatTreeLeft.{text_left};
ghost use Rattle.peg_json.specs.Statuses.{status_code};
ghost use Rattle.peg_replies.specs.WritesReply.{WritesToolReply};

use peg_io::{DeviceFault, ReadFault, Sink, write_all_bytes};
use peg_json::{Line, Status};
use peg_tree::FlatTreeWriter;
use thiserror::Error;

/// A failure of an input or of the output.
#[derive(Clone, Copy, Debug, PartialEq, Eq, Error)]
pub enum ToolFault {
    /// A read from an input failed.
    #[error("the input can't be read")]
    ReadFault,
    /// A write to the output failed.
    #[error("the output can't be written")]
    WriteFault,
}

/// Writes the line of a public call and returns its exit status. Without a line nothing is written. Out of memory is the
/// exit status 5.
pub(crate) fn write_tool_reply<W: Sink>(
    output: &mut W,
    reply: Result<Line, ReadFault>,
) -> Result<u8, ToolFault>
    requires { W.failed output.old ≡ false }
    ensures ends { WritesToolReply reply (W.written output.old) (W.written output.new) result }
    ensures read_fault { IsErrOf result ToolFault.ReadFault ↔ IsErrOf reply ReadFault.Device }
    ensures nothing_written { IsErrOf result ToolFault.ReadFault → Keeps (W.written output.old) (W.written output.new) }
    ensures write_fault { IsErrOf result ToolFault.WriteFault ↔ (W.failed output.new ≡ true) }
{
    match reply {
        Ok(line) => match write_line(output, line) {
            Ok(status) => Ok(status),
            Err(_) => Err(ToolFault::WriteFault),
        },
        Err(ReadFault::Device) => Err(ToolFault::ReadFault),
        Err(ReadFault::Memory) => Ok(Status::Memory.code()),
    }
}

/// Writes a line, without copies or allocations, and returns its exit status.
pub fn write_line<W: Sink>(output: &mut W, line: Line) -> Result<u8, DeviceFault>
    requires { W.failed output.old ≡ false }
    ensures ok { OnOk result (Appends (W.written output.old) (W.written output.new) (line_bytes line)) }
    ensures status { IfOk result (λ status. status ≡ status_code line.status) }
    ensures err { OnErr result (AppendsProperPrefix (W.written output.old) (W.written output.new) (line_bytes line)) }
    ensures failed { W.failed output.new ≡ is_err result }
{
    let Line {
        head,
        rows,
        tail,
        status,
    } = line;
    write_all_bytes(output, head.as_bytes())?;
    write_rows(output, rows)?;
    write_all_bytes(output, tail.bytes())?;
    Ok(status.code())
}

// Writes the nodes of a line, if it has some.
fn write_rows<W: Sink>(output: &mut W, rows: Option<FlatTreeWriter>) -> Result<(), DeviceFault>
    requires { W.failed output.old ≡ false }
    ensures ok { OnOk result (Appends (W.written output.old) (W.written output.new) (rows_text rows)) }
    ensures err { OnErr result (AppendsProperPrefix (W.written output.old) (W.written output.new) (rows_text rows)) }
    ensures failed { W.failed output.new ≡ is_err result }
{
    match rows {
        None => Ok(()),
        Some(rows) => write_pieces(output, rows),
    }
}

// Writes a list of nodes, piece by piece.
fn write_pieces<W: Sink>(output: &mut W, mut rows: FlatTreeWriter) -> Result<(), DeviceFault>
    requires { W.failed output.old ≡ false }
    ensures ok { OnOk result (Appends (W.written output.old) (W.written output.new) (text_left rows)) }
    ensures err { OnErr result (AppendsProperPrefix (W.written output.old) (W.written output.new) (text_left rows)) }
    ensures failed { W.failed output.new ≡ is_err result }
{
    rows.fill();
    'pieces: while !rows.piece().is_empty() {
        write_all_bytes(output, rows.piece())?;
        rows.fill();
    }
    Ok(())
}
