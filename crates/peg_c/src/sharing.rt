//! Handles that own their content together. No handle changes it, and the last one frees it.
ghost use Rattle.std.specs.Prelude.{◌≡◌, ◌≢◌, ◌↔◌, None, Some};
ghost use Rattle.std.specs.Arc.{arc_value};

use crate::handle::Handle;
use peg_handle::{Content, DONE, OUT_OF_MEMORY, WRONG_HANDLE};
use std::alloc::Global;
use std::sync::Arc;

/// Makes `out` another owner of what a handle holds. What `out` held before is freed. Constant time but for that.
pub(crate) fn share(alloc: Global, handle: &mut Handle, out: &mut Handle) -> u32
    ensures kept { handle.new.content ≡ handle.old.content }
    ensures statuses { result ≢ DONE → result ≢ WRONG_HANDLE → result ≡ OUT_OF_MEMORY }
    ensures shared { result ≡ DONE → out.new.content ≡ handle.old.content }
    ensures wrong { (result ≡ WRONG_HANDLE) ↔ (handle.old.content ≡ None) }
    ensures unchanged { result ≢ DONE → out.new.content ≡ out.old.content }
{
    match handle.take(alloc) {
        None => WRONG_HANDLE,
        Some(content) => {
            let status = share_into(alloc, &content, out);
            *handle = Handle::new(content);
            status
        }
    }
}

// Stores another owner of this content in a handle.
fn share_into(alloc: Global, content: &Arc<Content, Global>, out: &mut Handle) -> u32
    ensures statuses { result ≢ DONE → result ≡ OUT_OF_MEMORY }
    ensures shared { result ≡ DONE → out.new.content ≡ Some (arc_value content.now) }
    ensures unchanged { result ≢ DONE → out.new.content ≡ out.old.content }
{
    let owner = match Arc::try_clone(content) {
        Ok(owner) => owner,
        Err(_) => return OUT_OF_MEMORY,
    };
    match Box::new(alloc, owner) {
        Ok(owner) => {
            *out = Handle::new(owner);
            DONE
        }
        Err(_) => OUT_OF_MEMORY,
    }
}
