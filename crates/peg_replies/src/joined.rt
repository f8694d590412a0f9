//! Runs the tool over one input: a grammar file, a line `%%` and a text.
ghost use Rattle.std.specs.Prelude.{◌≡◌, ◌≤◌, ◌↔◌, true, false, length, IfOk, IfSome, IsErrOf, string_bytes};
ghost use Rattle.std.specs.Io.KnownBytes.{Keeps};
ghost use Rattle.peg_io.specs.Transfer.{ConsumesAtMost};
ghost use Rattle.peg_json.specs.Statuses.{status_code};
ghost use Rattle.peg_replies.specs.Replies.{IsPrintedJoined, max_joined_bytes};
ghost use Rattle.peg_replies.specs.Written.{Prints, PrintsInPart};
ghost use Rattle.peg_json.specs.Lines.{line_bytes};

use crate::loading::{Loaded, load};
use crate::nodes::Nodes;
use crate::parse::parse_line;
use crate::tree_printing::TreePrinting;
use crate::write::{ToolFault, write_tool_reply};
use peg_io::{ReadFault, Sink, Source, read_up_to, split};
use peg_json::{Line, TreeForm};
use peg_parser::{DEFAULT_MEMO, ParseOptions};
use std::alloc::{AllocError, Global};

/// The most bytes of the input held in memory, more than a grammar file and a text may have together.
const MAX_JOINED_BYTES: usize = 68_157_444;

/// Reads one input: a grammar file, a line `%%` and a text. Parses the text by the first rule, writes one line of JSON
/// and returns the exit status. Returns 5, with nothing written, if an allocation fails.
///
/// Neither device may have failed before. At most 68,157,444 bytes of the input are read and held in memory.
pub fn run_joined<G: Source, W: Sink>(
    alloc: Global,
    input: &mut G,
    output: &mut W,
) -> Result<u8, ToolFault>
    requires input_works { G.failed input.old ≡ false }
    requires output_works { W.failed output.old ≡ false }
    ensures answer { IfSome (G.left input.old) (λ bytes. IfOk result (λ status.
        Prints (IsPrintedJoined bytes) (W.written output.old) (W.written output.new) status)) }
    ensures held { ConsumesAtMost (G.left input.old) (G.left input.new) max_joined_bytes }

    // Failures of the devices: exactly these are reported, and this much is written then.
    ensures read_fault { IsErrOf result ToolFault.ReadFault ↔ (G.failed input.new ≡ true) }
    ensures nothing_written { IsErrOf result ToolFault.ReadFault → Keeps (W.written output.old) (W.written output.new) }
    ensures write_fault { IsErrOf result ToolFault.WriteFault ↔ (W.failed output.new ≡ true) }
    ensures partly_written { IfSome (G.left input.old) (λ bytes. IsErrOf result ToolFault.WriteFault
        → PrintsInPart (IsPrintedJoined bytes) (W.written output.old) (W.written output.new)) }
{
    let reply = joined_line(alloc, input);
    write_tool_reply(output, reply)
}

/// Reads an input and returns its line.
pub fn joined_line<G: Source>(alloc: Global, input: &mut G) -> Result<Line, ReadFault>
    requires { G.failed input.old ≡ false }
    ensures answer { IfSome (G.left input.old) (λ bytes. IfOk result (λ line.
        IsPrintedJoined bytes (line_bytes line) (status_code line.status))) }
    ensures held { ConsumesAtMost (G.left input.old) (G.left input.new) max_joined_bytes }
    ensures device { IsErrOf result ReadFault.Device ↔ (G.failed input.new ≡ true) }
{
    let bytes = read_up_to(alloc, input, MAX_JOINED_BYTES)?;
    Ok(line_for(alloc, &bytes)?)
}

// The line of an input that was read.
fn line_for(alloc: Global, input: &[u8]) -> Result<Line, AllocError>
    requires { length input.now ≤ max_joined_bytes }
    ensures { IfOk result (λ line. IsPrintedJoined input.now (line_bytes line) (status_code line.status)) }
{
    let (file, text) = split(input);
    let options = ParseOptions {
        start: None,
        memo: DEFAULT_MEMO,
        steps: None,
    };
    let printing = TreePrinting {
        all: false,
        form: TreeForm::Nested,
        nodes: Nodes::All,
        with_bytes: false,
    };
    match load(alloc, file)? {
        Loaded::Accepted(parser) => parse_line(alloc, parser, text, &options, printing),
        Loaded::Refused(line) => Ok(line),
    }
}
