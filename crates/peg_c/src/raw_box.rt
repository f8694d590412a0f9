//! Boxes as raw pointers.
ghost use Rattle.std.specs.Prelude.{◌≡◌};
ghost use Rattle.std_alloc.specs.Box.Ownership.{box_owns};

use std::alloc::Allocator;
use std::marker::Model;

/// A box taken apart: the address of its value, and its allocator. It owns what the box owned.
pub(crate) struct RawBox<T, A: Allocator> {
    pub(crate) address: *mut T,
    pub(crate) alloc: A,
    pub(crate) ghost value: { T },
}

impl<T, A: Allocator> Model for RawBox<T, A> {
    ghost also_owns = { λ raw. box_owns (A.dealloc_token raw.alloc) T.row raw.address raw.value };
}

impl<T: Drop, A: Allocator> RawBox<T, A> {
    /// Takes a box apart. Allocates nothing.
    pub(crate) fn from_box(owner: Box<T, A>) -> RawBox<T, A>
        ensures { result.value ≡ owner.value }
    {
        let (address, alloc) = Box::into_raw_with_allocator(owner);
        RawBox { address, alloc }
    }

    /// Puts the box together again.
    pub(crate) fn into_box(self) -> Box<T, A>
        ensures { result.value ≡ self.value }
    {
        let RawBox { address, alloc } = self;
        unsafe { Box::from_raw(alloc, address) }
    }
}
