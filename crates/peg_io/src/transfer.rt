//! Bounded reads from a source and complete writes to a sink.
ghost use Rattle.std.specs.Prelude.{◌≡◌, ◌<◌, ◌≤◌, ◌↔◌, true, false, IfOk, OnOk, OnErr, IsErrOf, is_err, vec_len};
ghost use Rattle.std.specs.Io.KnownBytes.{Appends, Consumes, IsAtEnd};
ghost use Rattle.peg_io.specs.Transfer.{ConsumesAtMost, AppendsProperPrefix};

use crate::device::{DeviceFault, Sink, Source};
use std::alloc::{AllocError, Global};
use thiserror::Error;

// The size of the read buffer, in bytes.
const PIECE: usize = 65536;

/// Why a bounded read failed.
#[derive(Clone, Copy, Debug, PartialEq, Eq, Error)]
pub enum ReadFault {
    /// An allocation failed.
    #[error("out of memory")]
    Memory,
    /// A read failed.
    #[error("a read failed")]
    Device,
}

impl From<AllocError> for ReadFault {
    ghost use Rattle.std.specs.Prelude.{◌≡◌};
    ghost use Rattle.peg_io.specs.declared.transfer.ReadFault.TheVariants.{Memory};

    ghost from_gives = { λ _ fault. fault ≡ Memory };

    fn from(_error: AllocError) -> ReadFault {
        ReadFault::Memory
    }
}

/// Reads until the end of the source or until `limit` bytes are read, and never requests more. A result shorter than
/// `limit` means that the source is at its end. Returns `Device` exactly if a read fails, and `Memory` if an allocation
/// fails. Linear in the bytes read, plus a buffer of 64 KiB.
pub fn read_up_to<G: Source>(
    alloc: Global,
    input: &mut G,
    limit: usize,
) -> Result<Vec<u8>, ReadFault>
    requires { G.failed input.old ≡ false }
    ensures bytes { IfOk result (λ held. Consumes (G.left input.old) (G.left input.new) held.items) }
    ensures limit { IfOk result (λ held. vec_len held ≤ limit) }
    ensures end { IfOk result (λ held. vec_len held < limit → IsAtEnd (G.left input.new)) }
    ensures not_failed { OnOk result (G.failed input.new ≡ false) }

    // On an error, too, at most `limit` bytes have been taken from the source.
    ensures consumed { ConsumesAtMost (G.left input.old) (G.left input.new) limit }
    ensures device { IsErrOf result ReadFault.Device ↔ (G.failed input.new ≡ true) }
    ensures never { G.never_fails input.old ≡ true → G.failed input.new ≡ false }
{
    let mut held = Vec::new(alloc);
    let mut buffer = zeros(alloc, PIECE)?;
    let piece = buffer.as_mut_slice();
    'reads: while held.len() < limit {
        let room = piece.len().min(limit - held.len());
        let count = match input.read(&mut piece[..room]) {
            Ok(0) => return Ok(held),
            Ok(count) => count,
            Err(_) => return Err(ReadFault::Device),
        };
        held.extend_from_slice(&piece[..count])?;
    }
    Ok(held)
}

// Allocates `count` zero bytes.
fn zeros(alloc: Global, count: usize) -> Result<Vec<u8>, AllocError>
    ensures { IfOk result (λ bytes. vec_len bytes ≡ count) }
{
    vec![in alloc; 0u8; count]
}

/// Writes all of `bytes`, in order. On an error only a proper prefix of `bytes` has been written.
pub fn write_all_bytes<W: Sink>(output: &mut W, bytes: &[u8]) -> Result<(), DeviceFault>
    requires { W.failed output.old ≡ false }
    ensures ok { OnOk result (Appends (W.written output.old) (W.written output.new) bytes.now) }
    ensures err { OnErr result
        (AppendsProperPrefix (W.written output.old) (W.written output.new) bytes.now) }
    ensures failed { W.failed output.new ≡ is_err result }
{
    let mut at = 0;
    'writes: while at < bytes.len() {
        at += output.write(&bytes[at..])?;
    }
    Ok(())
}
