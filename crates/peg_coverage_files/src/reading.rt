//! Reads texts by name.
ghost use Rattle.std.specs.Prelude.{◌≡◌, false, IfErr, IfOk, None, OnOk};
ghost use Rattle.peg_io.specs.NamedFile.{IsMissing, bytes_of, is_readable, open_error};
ghost use Rattle.peg_coverage_files.specs.CoveredTexts.{IsReadFault, IsReadOf};

use crate::fault::CoveringFault;
use peg_grammar::MAX_TEXT_BYTES;
use peg_io::{OpenFault, Opener, ReadFault, Source, read_up_to};
use std::alloc::Global;
use std::io::ErrorKind;

/// Reads the text with this name, up to the limit of a text and one byte more.
pub(crate) fn read_text<'a, O: Opener>(
    alloc: Global,
    files: &O,
    name: &'a str,
) -> Result<Vec<u8>, CoveringFault<'a>>
    ensures read { IfOk result (λ text. IsReadOf (bytes_of (O.file_at files.now name.now)) text.items) }
    ensures present { OnOk result (¬ IsMissing (O.file_at files.now name.now)) }
    ensures unread { IfErr result (IsReadFault name.now (is_readable (O.file_at files.now name.now))
        (open_error (O.file_at files.now name.now))) }
{
    match files.open(name) {
        Ok(mut file) => read_source(alloc, &mut file, name),
        Err(OpenFault::File { kind }) => Err(CoveringFault::File { name, kind }),
        Err(OpenFault::Memory) => Err(CoveringFault::Memory),
    }
}

// Reads the text with this name from an open file.
fn read_source<'a, T: Source>(
    alloc: Global,
    source: &mut T,
    name: &'a str,
) -> Result<Vec<u8>, CoveringFault<'a>>
    requires { T.failed source.old ≡ false }
    ensures read { IfOk result (λ text. IsReadOf (T.left source.old) text.items) }
    ensures unread { IfErr result (IsReadFault name.now (T.never_fails source.old) None) }
{
    match read_up_to(alloc, source, MAX_TEXT_BYTES + 1) {
        Ok(text) => Ok(text),
        Err(ReadFault::Device) => {
            let kind = source.fault_kind().unwrap_or(ErrorKind::Other);
            Err(CoveringFault::File { name, kind })
        }
        Err(ReadFault::Memory) => Err(CoveringFault::Memory),
    }
}
