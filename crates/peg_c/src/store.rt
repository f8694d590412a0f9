//! Storing content in a handle.
ghost use Rattle.std.specs.Prelude.{◌≡◌, false, IsTrue, Some};

use crate::handle::Handle;
use peg_handle::Content;
use std::alloc::Global;
use std::sync::Arc;

// Stores content in a handle, which is its only owner. What the handle held before is freed. Returns false, with the
// handle as it was, if an allocation fails.
pub(crate) fn store(alloc: Global, content: Content, out: &mut Handle) -> bool
    ensures stored { IsTrue result → out.new.content ≡ Some content }
    ensures unchanged { result ≡ false → out.new.content ≡ out.old.content }
{
    let owner = match Arc::new(alloc, content) {
        Ok(owner) => owner,
        Err(_) => return false,
    };
    match Box::new(alloc, owner) {
        Ok(owner) => {
            *out = Handle::new(owner);
            true
        }
        Err(_) => false,
    }
}
