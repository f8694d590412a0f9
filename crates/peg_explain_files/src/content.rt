//! What a file with a name holds.
ghost use Rattle.std.specs.Prelude.{◌≡◌, ◌≢◌, false, true, IfOk, IfSome};
ghost use Rattle.peg_explain_files.specs.Contents.{HoldsAtMost, IsContentOf, IsRead};

use peg_io::{OpenFault, Opener, ReadFault, Source, read_up_to};
use std::alloc::{AllocError, Global};

/// What a file holds, up to a number of bytes, or why that isn't known.
#[derive(Drop)]
pub enum Content {
    /// The file begins with these bytes.
    Bytes(Vec<u8>),
    /// The file can't be opened.
    Unopened,
    /// The file can't be read.
    Unreadable,
}

/// Returns what the file with this name holds, up to this many bytes. The only error is a failed allocation.
pub fn content_of<O: Opener>(
    alloc: Global,
    files: &O,
    name: &str,
    limit: usize,
) -> Result<Content, AllocError>
    ensures content { IfOk result (IsContentOf limit (O.file_at files.now name.now)) }
    ensures held { IfOk result (HoldsAtMost limit) }
{
    match files.open(name) {
        Ok(mut source) => read_content(alloc, &mut source, limit),
        Err(OpenFault::File { .. }) => Ok(Content::Unopened),
        Err(OpenFault::Memory) => Err(AllocError),
    }
}

/// Returns what a source holds, up to this many bytes. The only error is a failed allocation.
pub(crate) fn read_content<T: Source>(
    alloc: Global,
    source: &mut T,
    limit: usize,
) -> Result<Content, AllocError>
    requires { T.failed source.old ≡ false }
    ensures opened { IfOk result (λ content. content ≢ Content.Unopened) }
    ensures bytes { IfSome (T.left source.old) (λ bytes. IfOk result (IsRead limit bytes)) }
    ensures held { IfOk result (HoldsAtMost limit) }
    ensures readable { T.never_fails source.old ≡ true → IfOk result (λ content. content ≢ Content.Unreadable) }
{
    match read_up_to(alloc, source, limit) {
        Ok(bytes) => Ok(Content::Bytes(bytes)),
        Err(ReadFault::Device) => Ok(Content::Unreadable),
        Err(ReadFault::Memory) => Err(AllocError),
    }
}
