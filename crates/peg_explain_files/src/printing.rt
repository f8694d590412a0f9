//! Writes messages to the output, if they are printed.
ghost use Rattle.std.specs.Prelude.{◌≡◌, false};
ghost use Rattle.peg_explain_files.specs.Entries.{entry_message};
ghost use Rattle.peg_explain_files.specs.Printings.{WritesAlone, WritesPrinted, has_write_failed};

use crate::ended::{Ended, ExplainFault, Verdict};
use crate::entry::Entry;
use peg_io::{Sink, write_all_bytes};
use std::alloc::Global;

/// What is printed of an explanation.
#[derive(Clone, Copy, Debug, PartialEq, Eq)]
pub enum Printing {
    /// Messages, and lines for files that can't be opened or read.
    All,
    /// Nothing: the verdict alone says the result.
    Nothing,
}

impl Printing {
    ghost use Rattle.std.specs.Prelude.{◌≡◌};
    ghost use Rattle.peg_explain_files.specs.Printings.{printing_of};

    /// Returns `Nothing` if nothing is to be printed, and `All` otherwise.
    pub fn from_quiet(quiet: bool) -> Printing
        ensures { result ≡ printing_of quiet }
    {
        if quiet {
            Printing::Nothing
        } else {
            Printing::All
        }
    }
}

/// Writes bytes, if they are printed. On an error only a proper prefix of them has been written.
pub fn write_printed<W: Sink>(
    output: &mut W,
    bytes: &[u8],
    printing: Printing,
) -> Result<(), ExplainFault>
    requires { W.failed output.old ≡ false }
    ensures writes { WritesPrinted printing bytes.now (W.written output.old) (W.written output.new) result }
    ensures failed { W.failed output.new ≡ has_write_failed result }
{
    match printing {
        Printing::Nothing => Ok(()),
        Printing::All => match write_all_bytes(output, bytes) {
            Ok(()) => Ok(()),
            Err(_) => Err(ExplainFault::Write),
        },
    }
}

/// Writes the message of a text, if it is printed. Writes nothing if an allocation fails.
pub(crate) fn write_entry<W: Sink>(
    alloc: Global,
    output: &mut W,
    entry: &Entry<'_>,
    printing: Printing,
) -> Result<(), ExplainFault>
    requires { W.failed output.old ≡ false }
    ensures writes { WritesPrinted printing (entry_message entry.now) (W.written output.old) (W.written output.new) result }
    ensures failed { W.failed output.new ≡ has_write_failed result }
{
    let mut message = Vec::new(alloc);
    entry.write_message(alloc, &mut message)?;
    write_printed(output, &message, printing)
}

/// Writes a message that is the only one, if it is printed, and returns how that ends.
pub fn write_alone<W: Sink>(
    alloc: Global,
    output: &mut W,
    message: &[u8],
    verdict: Verdict,
    printing: Printing,
) -> Result<Ended, ExplainFault>
    requires { W.failed output.old ≡ false }
    ensures writes { WritesAlone printing message.now verdict (W.written output.old) (W.written output.new) result }
    ensures failed { W.failed output.new ≡ has_write_failed result }
{
    write_printed(output, message, printing)?;
    Ok(Ended {
        faults: String::new(alloc),
        verdict,
    })
}
