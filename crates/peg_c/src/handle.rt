//! The handle that C code holds.
ghost use Rattle.std.specs.Prelude.{◌≡◌, Option, None, Some, option_map};
ghost use Rattle.std.specs.Coded.{coded_option};
ghost use Rattle.peg_handle.specs.contracts.content.Content.{the_row};
ghost use Rattle.peg_handle.specs.declared.content.Content.{Content};

use crate::raw_box::RawBox;
use peg_handle::Content;
use std::alloc::Global;
use std::marker::Model;
use std::sync::Arc;

/// What a handle points to, as C sees it. C code neither reads nor writes it.
#[repr(C)]
pub struct Opaque {
    byte: u8,
}

/// A handle: for C, a struct of one pointer. A null handle has no content. Any other owns its content, on the heap,
/// alone or together with other handles. No handle changes it, and the last one frees it.
#[repr(C)]
pub struct Handle {
    address: *mut Opaque,
    // Takes no bytes. The handle frees its content by it when it is dropped.
    alloc: Global,
    pub ghost content: { Option Content } by { coded_option the_row.coded },
}

impl Model for Handle {
    ghost use Rattle.peg_c.specs.HandleOwns.{handle_owns};
    ghost use Rattle.peg_handle.specs.contracts.content.Content.{the_row};
    ghost use Rattle.peg_handle.specs.declared.content.Content.{Content};

    ghost also_owns = { λ handle. handle_owns the_row handle.alloc handle.address handle.content };
}

impl Handle {
    /// Returns a null handle.
    pub(crate) fn null(alloc: Global) -> Handle
        ensures { result.content ≡ None }
    {
        let address = std::ptr::null_mut();
        Handle { address, alloc }
    }

    // Returns the handle of a box that was taken apart.
    fn from_raw_box(raw: RawBox<Arc<Content, Global>, Global>) -> Handle
        ensures { result.content ≡ Some raw.value.value }
    {
        let RawBox { address, alloc } = raw;
        Handle {
            address: address.cast(),
            alloc,
        }
    }

    // Returns the box of a handle, taken apart, or nothing for a null handle.
    fn into_raw_box(self) -> Option<RawBox<Arc<Content, Global>, Global>>
        ensures { option_map (λ raw. raw.value.value) result ≡ self.content }
    {
        let Handle { address, alloc } = self;
        if address.is_null() {
            None
        } else {
            Some(RawBox {
                address: address.cast(),
                alloc,
            })
        }
    }

    /// Returns the handle that owns this content. Allocates nothing.
    pub(crate) fn new(content: Box<Arc<Content, Global>>) -> Handle
        ensures { result.content ≡ Some content.value.value }
    {
        Handle::from_raw_box(RawBox::from_box(content))
    }

    /// Takes the content out of a handle, which is null from then on.
    pub(crate) fn take(&mut self, alloc: Global) -> Option<Box<Arc<Content, Global>>>
        ensures content { option_map (λ content. content.value.value) result ≡ self.old.content }
        ensures left { self.new.content ≡ None }
    {
        let handle = std::mem::replace(self, Handle::null(alloc));
        match handle.into_raw_box() {
            Some(raw) => Some(raw.into_box()),
            None => None,
        }
    }
}

impl Drop for Handle {
    fn drop(self) {
        if let Some(raw) = self.into_raw_box() {
            drop(raw.into_box());
        }
    }
}
