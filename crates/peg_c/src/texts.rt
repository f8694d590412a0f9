//! Calls that need no handle.
ghost use Rattle.std.specs.Prelude.{◌≡◌, ◌≢◌, ◌≤◌, ◌<◌, ◌↔◌, ℕ, length, min, slice_get};
ghost use Rattle.peg_bytes.specs.Place.{column_at, line_at, max_offset};
ghost use Rattle.peg_c.specs.StatusNames.{status_name};

use peg_bytes::place;
use peg_handle::{
    DONE, FAILED, NO_SUCH_RULE, NO_SUCH_START, OUT_OF_MEMORY, OUT_OF_RANGE, REFUSED, STEP_LIMIT,
    TEXT_TOO_LONG, WRONG_HANDLE, copy_text,
};

// The number of the binary interface. It changes with each change that old programs would not survive.
const ABI: u32 = 1;

// The version of the library.
const VERSION: &str = "0.1.0";

/// A position in a file or a text: line and column, both from 1. Columns count bytes.
#[repr(C)]
#[derive(Clone, Copy, Debug, PartialEq, Eq)]
pub struct Location {
    pub line: u32,
    pub column: u32,
}

/// Writes the line and the column of an offset of a file or a text. Linear in the offset.
#[unsafe(no_mangle)]
pub extern "C" fn peg_locate(text: &[u8], at: usize, out: &mut Location) -> u32
    ensures statuses { result ≢ DONE → result ≡ OUT_OF_RANGE }
    ensures in_range { (result ≡ DONE) ↔ ((at ≤ length text.now) × (at ≤ max_offset)) }
    ensures line { result ≡ DONE → out.new.line ≡ line_at text.now at }
    ensures column { result ≡ DONE → out.new.column ≡ column_at text.now at }
    ensures unchanged { result ≡ OUT_OF_RANGE → out.new ≡ out.old }
{
    if at > text.len() || at > 2_147_483_647 {
        return OUT_OF_RANGE;
    }
    let there = place(text, at as u32);
    *out = Location {
        line: there.line,
        column: there.column,
    };
    DONE
}

/// Returns the number of the binary interface, which is `PEG_ABI` of the header.
#[unsafe(no_mangle)]
pub extern "C" fn peg_abi() -> u32
    ensures { result ≡ 1 }
{
    ABI
}

/// Copies the start of the version of the library, as much as fits. Returns the length of the whole version.
#[unsafe(no_mangle)]
pub extern "C" fn peg_version(out: &mut [u8]) -> usize
    ensures length { result ≡ length VERSION.now }
    ensures copied { (place : ℕ) → place < min (length out.old) result
        → slice_get out.new place ≡ slice_get VERSION.now place }
    ensures rest { (place : ℕ) → min (length out.old) result ≤ place
        → slice_get out.new place ≡ slice_get out.old place }
{
    copy_text(VERSION.as_bytes(), out)
}

/// Copies the start of the name of a status, as much as fits. Returns the length of the whole name, which is 0 for a
/// number that is no status.
#[unsafe(no_mangle)]
pub extern "C" fn peg_status_name(status: u32, out: &mut [u8]) -> usize
    ensures length { result ≡ length (status_name status) }
    ensures copied { (place : ℕ) → place < min (length out.old) result
        → slice_get out.new place ≡ slice_get (status_name status) place }
    ensures rest { (place : ℕ) → min (length out.old) result ≤ place
        → slice_get out.new place ≡ slice_get out.old place }
{
    copy_text(name_of_status(status).as_bytes(), out)
}

// Returns the name of a status, or nothing for another number.
fn name_of_status(status: u32) -> &'static str
    ensures { result.now ≡ status_name status }
{
    match status {
        DONE => "PEG_OK",
        FAILED => "PEG_FAILED",
        REFUSED => "PEG_REFUSED",
        NO_SUCH_START => "PEG_NO_SUCH_START",
        WRONG_HANDLE => "PEG_WRONG_HANDLE",
        OUT_OF_MEMORY => "PEG_OUT_OF_MEMORY",
        STEP_LIMIT => "PEG_STEP_LIMIT",
        TEXT_TOO_LONG => "PEG_TEXT_TOO_LONG",
        OUT_OF_RANGE => "PEG_OUT_OF_RANGE",
        NO_SUCH_RULE => "PEG_NO_SUCH_RULE",
        _ => "",
    }
}
