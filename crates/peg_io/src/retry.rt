//! Reads and writes that are repeated after an interruption by a signal.
ghost use Rattle.std.specs.Prelude.{◌≡◌, ◌↔◌, ◌<◌, ◌≤◌, length, IfOk, IsTrue};
ghost use Rattle.std.specs.Io.KnownBytes.{ReadConsumes, WriteAppends};
ghost use Rattle.std.specs.IoError.{error_kind};

use std::io::{Error, ErrorKind, Read, Write};

// The number of interruptions in a row after which a call counts as failed. So a call always ends.
const MAX_INTERRUPTIONS: u32 = 1_000_000;

/// Reads bytes into the start of `piece` and returns their number, or the kind of the error. If a signal interrupts the
/// read, it is repeated.
pub(crate) fn read_again<D: Read>(inner: &mut D, piece: &mut [u8]) -> Result<usize, ErrorKind>
    requires { 0 < length piece.old }
    ensures bound { IfOk result (λ count. count ≤ length piece.new) }
    ensures bytes { ReadConsumes (D.remaining inner.old) (D.remaining inner.new) result piece.new }
{
    'tries: for _ in 0..MAX_INTERRUPTIONS {
        match inner.read(piece) {
            Ok(count) => return Ok(count),
            Err(error) => {
                if !is_interruption(&error) {
                    return Err(error.kind());
                }
            }
        }
    }
    Err(ErrorKind::Interrupted)
}

/// Writes a nonempty prefix of `piece` and returns its length, or the kind of the error. If a signal interrupts the
/// write, it is repeated. A write of 0 bytes is a failure.
pub(crate) fn write_again<D: Write>(inner: &mut D, piece: &[u8]) -> Result<usize, ErrorKind>
    requires { 0 < length piece.now }
    ensures bound { IfOk result (λ count. count ≤ length piece.now) }
    ensures some { IfOk result (λ count. 0 < count) }
    ensures bytes { WriteAppends (D.contents inner.old) (D.contents inner.new) result piece.now }
{
    'tries: for _ in 0..MAX_INTERRUPTIONS {
        match inner.write(piece) {
            Ok(0) => return Err(ErrorKind::WriteZero),
            Ok(count) => return Ok(count),
            Err(error) => {
                if !is_interruption(&error) {
                    return Err(error.kind());
                }
            }
        }
    }
    Err(ErrorKind::Interrupted)
}

fn is_interruption(error: &Error) -> bool
    ensures { IsTrue result ↔ (error_kind error.now ≡ ErrorKind.Interrupted) }
{
    error.kind() == ErrorKind::Interrupted
}
