//! The items that are a part of a rule that a message names.
ghost use Rattle.std.specs.Prelude.{◌≡◌, ◌==◌, ◌&&◌, ◌||◌, ℕ, false, IfOk, length, nat_lt};
ghost use Rattle.std.specs.List.{list_any};
ghost use Rattle.peg_explain.specs.Names.{has_failed, is_expected_by, is_part};
ghost use Rattle.peg_explain.specs.Parts.{has_part};

use crate::names::Rest;
use std::alloc::{AllocError, Global};

/// The items that are a part of a rule that fails at once, by number.
#[derive(Drop)]
pub(crate) struct Parts {
    pub(crate) flags: Vec<bool>,
}

impl Parts {
    // Returns no items, for a grammar with this many. The only error is a failed allocation.
    fn none(alloc: Global, items: usize) -> Result<Parts, AllocError>
        ensures count { IfOk result (λ parts. length parts.flags.items ≡ items) }
        ensures empty { IfOk result (λ parts. (item : ℕ) → has_part parts item ≡ false) }
    {
        let flags = vec![in alloc; false; items]?;
        Ok(Parts { flags })
    }

    /// Returns the items that are a part of a rule that fails at once, for a grammar with this many items. Takes time
    /// linear in the items that the rests expect. The only error is a failed allocation.
    pub(crate) fn of_rests(alloc: Global, rests: &[Rest], items: usize) -> Result<Parts, AllocError>
        ensures { IfOk result (λ parts. (item : ℕ) → has_part parts item ≡ is_part rests.now items item) }
    {
        let mut parts = Parts::none(alloc, items)?;
        'rests: for rest in rests {
            parts.add_rest(rest);
        }
        Ok(parts)
    }

    /// Returns whether an item is a part of a rule that fails at once. Constant time.
    pub(crate) fn contains(&self, item: u32) -> bool
        ensures { result ≡ has_part self.now item }
    {
        match self.flags.get(item as usize) {
            Some(flag) => *flag,
            None => false,
        }
    }

    // Adds the items that a rest expects, if its rule fails at once.
    fn add_rest(&mut self, rest: &Rest)
        ensures count { length self.new.flags.items ≡ length self.old.flags.items }
        ensures added { (item : ℕ) → has_part self.new item ≡ (has_part self.old item
            || ((has_failed rest.now.outcome.result && is_expected_by rest.now item)
            && nat_lt item (length self.old.flags.items))) }
    {
        if !rest.fails_at_once() {
            return;
        }
        self.add_all(&rest.outcome.expected);
    }

    // Adds items. Those that the grammar doesn't have are ignored.
    fn add_all(&mut self, items: &[u32])
        ensures count { length self.new.flags.items ≡ length self.old.flags.items }
        ensures added { (item : ℕ) → has_part self.new item ≡ (has_part self.old item
            || (list_any (λ number. number == item) items.now && nat_lt item (length self.old.flags.items))) }
    {
        'items: for item in items {
            self.add(*item);
        }
    }

    // Adds an item, if the grammar has it.
    fn add(&mut self, item: u32)
        ensures count { length self.new.flags.items ≡ length self.old.flags.items }
        ensures added { (other : ℕ) → has_part self.new other ≡ (has_part self.old other
            || (item == other && nat_lt other (length self.old.flags.items))) }
    {
        let index = item as usize;
        if index < self.flags.len() {
            self.flags[index] = true;
        }
    }
}
