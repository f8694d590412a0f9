//! A memo that stores nothing.
ghost use Rattle.std.specs.Prelude.{false};
ghost use Rattle.std.specs.FinMap as map;

use crate::{Found, Keep};

/// A memo that stores nothing.
#[derive(Clone, Copy, Debug, Drop)]
pub struct NoMemo;

impl Keep for NoMemo {
    ghost entries = { λ _. map.empty };

    ghost capacity = { λ _. 0 };

    ghost allocation_failed = { λ _. false };

    ghost out_of_memory = { λ _. false };

    fn is_empty(&self) -> bool {
        true
    }

    fn may_store(&self) -> bool {
        false
    }

    fn is_out_of_memory(&self) -> bool {
        false
    }

    fn touch(&mut self, _rule: u32, _place: u32) {}

    fn find(&self, _rule: u32, _place: u32) -> Option<Found<'_>> {
        None
    }

    fn keep(&mut self, _rule: u32, _place: u32, _found: Found<'_>) -> bool {
        false
    }
}
