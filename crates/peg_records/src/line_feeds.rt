//! The line feeds of records.
ghost use Rattle.std.specs.Prelude.{◌≡◌, ◌+◌, ◌≤◌, IfOk, length};
ghost use Rattle.std.specs.List.{count_by};
ghost use Rattle.peg_records.specs.Records.{is_line_feed, line_feeds_found};

use crate::end::RecordEnd;
use std::alloc::AllocError;

// The most line feeds that are counted of the bytes of a record that aren't kept.
const MAX_LOST: u64 = 4_611_686_018_427_387_904;

/// Returns the number of line feeds of a record, with its end, by those that are lost and the bytes that are kept.
pub(crate) fn line_feeds_found(end: RecordEnd, lost: u64, kept: &[u8]) -> u64
    requires { lost ≤ 4611686018427387904 }
    ensures { result ≡ line_feeds_found end lost kept.now }
{
    match end {
        RecordEnd::Line | RecordEnd::CrLf => 1,
        RecordEnd::Zero => lost + line_feeds_in(kept) as u64,
    }
}

// The number of line feeds in some bytes.
fn line_feeds_in(bytes: &[u8]) -> usize
    ensures value { result ≡ count_by is_line_feed bytes.now }
    ensures within { result ≤ length bytes.now }
{
    bytes.iter().filter(|byte| **byte == b'\n').count()
}

/// Returns the number of lost line feeds after these bytes are lost, too. The only error is that there are too many.
pub(crate) fn more_lost(lost: u64, bytes: &[u8]) -> Result<u64, AllocError>
    requires { lost ≤ 4611686018427387904 }
    ensures value { IfOk result (λ more. more ≡ lost + count_by is_line_feed bytes.now) }
    ensures few { IfOk result (λ more. more ≤ 4611686018427387904) }
{
    let more = lost + line_feeds_in(bytes) as u64;
    if more > MAX_LOST {
        return Err(AllocError);
    }
    Ok(more)
}
