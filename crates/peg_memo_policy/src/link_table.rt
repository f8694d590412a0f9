//! The table of stored results.
ghost use Rattle.std.specs.Prelude.{◌≡◌, ◌-◌, ◌<◌, ◌≤◌, ◌↔◌, [], ℕ, length, take, IfOk, IsTrue};
ghost use Rattle.std.specs.Map.{lookup};
ghost use Rattle.lru.specs.LruCache.{lru_cache, promoted, put_entries};
ghost use Rattle.peg_memo.specs.MemoKey.{key_eq};

use crate::linked_result::LinkedResult;
use lru::LruCache;
use std::alloc::{AllocError, Global};
use std::marker::Model;
use std::num::NonZeroUsize;

/// The stored results of calls, by rule and position, up to a capacity. When it is full, a new result evicts the one
/// that was stored or touched the longest ago.
#[derive(Drop)]
pub struct LinkTable {
    cache: LruCache<(u32, u32), LinkedResult>,
}

impl Model for LinkTable {
    ghost use Rattle.std.specs.Prelude.{List};
    ghost use Rattle.peg_memo.specs.MemoKey.{MemoKey};
    ghost use Rattle.peg_memo_policy.specs.declared.linked_result.LinkedResult.{LinkedResult};

    ghost Value = { List (MemoKey × LinkedResult) };

    ghost view = { λ table. table.cache.entries };
}

impl LinkTable {
    /// Returns an empty table. The only error is a failed allocation.
    pub fn new(alloc: Global, capacity: u32) -> Result<LinkTable, AllocError>
        requires { 1 ≤ capacity }
        ensures { IfOk result (λ table. table ≡ []) }
    {
        let most = NonZeroUsize::new(capacity as usize).unwrap();
        Ok(LinkTable {
            cache: LruCache::sparse(alloc, most)?,
        })
    }

    /// Returns the result of a rule at a position, if it is stored.
    pub fn find(&self, rule: u32, position: u32) -> Option<LinkedResult>
        ensures { result ≡ lookup (key_eq (rule, position)) self.now }
    {
        self.cache.peek(&(rule, position)).copied()
    }

    /// Marks the result of a rule at a position as used, if it is stored.
    pub fn touch(&mut self, rule: u32, position: u32)
        ensures { self.new ≡ promoted (key_eq (rule, position)) self.old }
    {
        self.cache.promote(&(rule, position));
    }

    /// Stores a result, in place of one of the same call. Returns false if an allocation fails; then nothing changes.
    pub fn put(&mut self, rule: u32, position: u32, stored: LinkedResult) -> bool
        ensures stored { IsTrue result → (capacity : ℕ)
            × (self.new ≡ put_entries key_eq (lru_cache self.old capacity) (rule, position) stored) }
        ensures refused { ¬ IsTrue result → self.new ≡ self.old }
    {
        self.cache.put((rule, position), stored).is_ok()
    }

    /// Removes the result that was stored or touched the longest ago. Returns whether there was one.
    pub fn evict(&mut self) -> bool
        ensures rest { self.new ≡ take (length self.old - 1) self.old }
        ensures some { IsTrue result ↔ (0 < length self.old) }
    {
        self.cache.pop_lru().is_some()
    }

    /// Removes all results. Linear in their number.
    pub fn clear(&mut self)
        ensures { self.new ≡ [] }
    {
        self.cache.clear();
    }
}
