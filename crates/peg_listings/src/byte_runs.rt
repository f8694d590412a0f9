//! The maximal runs of consecutive bytes of a set.
ghost use Rattle.std.specs.Prelude.{◌≡◌, ◌+◌, ◌∷◌, IfNone, IfOk, IfSome, OnOk, map, reverse};
ghost use Rattle.peg_bytes.specs.ByteSet.{bytes_of};
ghost use Rattle.peg_listings.specs.ByteRuns.{IsApart, byte_run_of};
ghost use Rattle.peg_listings.specs.CodeText.{runs_from, with_byte};

use peg_bytes::ByteSet;
use std::alloc::{AllocError, Global};

// Consecutive bytes, from the first to the last.
#[derive(Clone, Copy)]
pub(crate) struct ByteRun {
    pub first: u8,
    pub last: u8,
}

// The maximal runs of consecutive bytes of a set, in descending order.
pub(crate) fn runs_of(alloc: Global, set: &ByteSet) -> Result<Vec<ByteRun>, AllocError>
    ensures { IfOk result (λ runs. reverse (map byte_run_of runs.items) ≡ runs_from 0 (bytes_of set.now)) }
{
    let mut runs = Vec::new(alloc);
    for above in 0..256u32 {
        let byte = (255 - above) as u8;
        if set.contains(byte) {
            add_byte(&mut runs, byte)?;
        }
    }
    Ok(runs)
}

// Adds a byte below all runs. It extends the newest run if that starts at the next byte.
fn add_byte(runs: &mut Vec<ByteRun>, byte: u8) -> Result<(), AllocError>
    ensures { OnOk result (reverse (map byte_run_of runs.new.items) ≡ with_byte byte (reverse
        (map byte_run_of runs.old.items))) }
{
    let first = byte;
    match pop_last_before(runs, byte) {
        Some(ByteRun { last, .. }) => runs.push(ByteRun { first, last })?,
        None => runs.push(ByteRun { first, last: byte })?,
    }
    Ok(())
}

// Pops the newest run if it starts at the byte after this one.
fn pop_last_before(runs: &mut Vec<ByteRun>, byte: u8) -> Option<ByteRun>
    ensures some { IfSome result (λ run. reverse (map byte_run_of runs.old.items) ≡ byte_run_of run ∷ reverse
        (map byte_run_of runs.new.items)) }
    ensures adjacent { IfSome result (λ run. run.first ≡ byte + 1) }
    ensures same { IfNone result (runs.new.items ≡ runs.old.items) }
    ensures none { IfNone result (IsApart byte (reverse (map byte_run_of runs.old.items))) }
{
    match runs.last() {
        Some(run) if u16::from(run.first) == u16::from(byte) + 1 => runs.pop(),
        _ => None,
    }
}
