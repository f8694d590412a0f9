//! A memo of bounded size that evicts the least recently used entry.
ghost use Rattle.std.specs.Prelude.{◌≡◌, ◌-◌, ◌<◌, ◌≤◌, ◌⊎◌, ◌↔◌, [], false, length, option_map, take, Some};
ghost use Rattle.std.specs.Prelude.{if◌then◌else◌, IfOk, IfSome, OnOk, OnErr, IsTrue};
ghost use Rattle.std.specs.FinMap as map;
ghost use Rattle.std.specs.List.{IsDistinct};
ghost use Rattle.std.specs.Map.{keys_of, lookup};
ghost use Rattle.lru.specs.LruCache.{last_entry, lru_cache, promoted, put_entries};
ghost use Rattle.peg_memo.specs.MemoMap.{entries_in, IsPartOf};
ghost use Rattle.peg_memo.specs.StoredResult.{stored_of, stored_node_count};
ghost use Rattle.peg_memo.specs.Memo.{memo, after_keep};
ghost use Rattle.peg_memo.specs.Stored.{pairs_in};
ghost use Rattle.peg_memo.specs.MemoKey.{key_eq};

use crate::stored::{Stored, as_found, node_count, to_stored};
use crate::{Found, Keep};
use lru::LruCache;
use std::alloc::{AllocError, Global};
use std::marker::Model;
use std::num::NonZeroUsize;

// Stored results, by rule and position.
type Results = LruCache<(u32, u32), Stored>;

/// A memo of up to `capacity` entries. When it is full, a new entry evicts the one that was stored or touched the
/// longest ago.
#[derive(Drop)]
pub struct LruMemo {
    alloc: Global,
    cache: Results,
    allocation_failed: bool,
}

impl Model for LruMemo {
    ghost use Rattle.peg_memo.specs.Memo.{Memo, memo};
    ghost use Rattle.peg_memo.specs.Stored.{pairs_in};

    ghost Value = { Memo };

    ghost view = { λ it. memo (pairs_in it.cache.entries) it.cache.cap it.allocation_failed };
}

impl LruMemo {
    /// Returns an empty memo. The only error is a failed allocation.
    pub fn new(alloc: Global, capacity: u32) -> Result<LruMemo, AllocError>
        requires { 1 ≤ capacity }
        ensures { IfOk result (λ it. it ≡ memo [] capacity false) }
    {
        let most = NonZeroUsize::new(capacity as usize).unwrap();
        Ok(LruMemo {
            alloc,
            cache: LruCache::sparse(alloc, most)?,
            allocation_failed: false,
        })
    }

    /// Returns whether an allocation of `keep` has failed since the memo was made.
    pub fn was_refused(&self) -> bool
        ensures { result ≡ self.now.allocation_failed }
    {
        self.allocation_failed
    }

    /// Evicts the last entry and returns the number of its nodes, or `None` if the memo is empty.
    pub fn evict_lru(&mut self) -> Option<usize>
        ensures memo { self.new
            ≡ memo (take (length self.old.pairs - 1) self.old.pairs) self.old.capacity self.old.allocation_failed }
        ensures rows { result ≡ option_map (λ pair. stored_node_count pair.1) (last_entry self.old.pairs) }
        ensures part { IsPartOf (entries_in self.new.pairs) (entries_in self.old.pairs) }
    {
        let (_, stored) = self.cache.pop_lru()?;
        Some(node_count(&stored))
    }
}

// What the trait's methods do, in terms of the pairs in their order.
impl LruMemo {
    fn has_no_entries(&self) -> bool
        ensures { IsTrue result ↔ (self.now.pairs ≡ []) }
    {
        self.cache.is_empty()
    }

    fn promote(&mut self, rule: u32, position: u32)
        ensures { self.new
            ≡ memo (promoted (key_eq (rule, position)) self.old.pairs) self.old.capacity self.old.allocation_failed }
    {
        self.cache.promote(&(rule, position));
    }

    fn lookup(&self, rule: u32, position: u32) -> Option<Found<'_>>
        ensures { option_map stored_of result ≡ lookup (key_eq (rule, position)) self.now.pairs }
    {
        let kept = self.cache.peek(&(rule, position))?;
        Some(as_found(kept))
    }

    fn store(&mut self, rule: u32, position: u32, found: Found<'_>) -> bool
        ensures memo { self.new ≡ after_keep result self.old (rule, position) (stored_of found.entry) }
        ensures distinct { IsDistinct key_eq (keys_of self.old.pairs) }
    {
        // Called for its contract only: no two entries have the same rule and position.
        let _ = self.cache.len();
        let kept = put(self.alloc, &mut self.cache, (rule, position), found).is_ok();
        if !kept {
            self.allocation_failed = true;
        }
        kept
    }
}

// On an error the cache is as it was.
fn put(
    alloc: Global,
    cache: &mut Results,
    asked: (u32, u32),
    found: Found<'_>,
) -> Result<(), AllocError>
    ensures ok { OnOk result (pairs_in cache.new.entries
        ≡ put_entries key_eq (lru_cache (pairs_in cache.old.entries) cache.old.cap) asked (stored_of found.entry)) }
    ensures err { OnErr result (cache.new ≡ cache.old) }
    ensures capacity { cache.new.cap ≡ cache.old.cap }
{
    let stored = to_stored(alloc, found)?;
    cache.put(asked, stored)?;
    Ok(())
}

impl Keep for LruMemo {
    ghost entries = { λ it. entries_in it.pairs };

    ghost capacity = { λ it. it.capacity };

    ghost allocation_failed = { λ it. it.allocation_failed };

    ghost out_of_memory = { λ _. false };

    fn is_empty(&self) -> bool
        ensures pairs { IsTrue result ↔ (self.now.pairs ≡ []) }
        ensures entries { IsTrue result ↔ (map.len (entries_in self.now.pairs) ≡ 0) }
    {
        self.has_no_entries()
    }

    /// Returns false: a failed allocation costs one result, and `was_refused` reports it.
    fn is_out_of_memory(&self) -> bool {
        false
    }

    /// Moves the entry of a rule at a position to the front, if there is one.
    fn touch(&mut self, rule: u32, position: u32)
        ensures front { self.new
            ≡ memo (promoted (key_eq (rule, position)) self.old.pairs) self.old.capacity self.old.allocation_failed }
        ensures part { IsPartOf (entries_in self.new.pairs) (entries_in self.old.pairs) }
        ensures same { 0 < self.old.capacity → entries_in self.new.pairs ≡ entries_in self.old.pairs }
        ensures capacity { self.new.capacity ≡ self.old.capacity }
        ensures allocation_failed { IsTrue self.old.allocation_failed → IsTrue self.new.allocation_failed }
    {
        self.promote(rule, position);
    }

    fn find(&self, rule: u32, position: u32) -> Option<Found<'_>>
        ensures first { option_map stored_of result ≡ lookup (key_eq (rule, position)) self.now.pairs }
        ensures entries { IfSome result (λ found. map.get (entries_in self.now.pairs) (rule, position) ≡ Some
            (stored_of found)) }
        ensures all { 0 < self.now.capacity
            → option_map stored_of result ≡ map.get (entries_in self.now.pairs) (rule, position) }
    {
        self.lookup(rule, position)
    }

    /// Stores the result of a rule at a position as the first entry, and replaces an entry that they have. A full memo
    /// evicts its last entry for a new one. Returns false if an allocation fails; then no entry changes.
    fn keep(&mut self, rule: u32, position: u32, found: Found<'_>) -> bool
        ensures memo { self.new ≡ after_keep result self.old (rule, position) (stored_of found.entry) }
        ensures distinct { IsDistinct key_eq (keys_of self.old.pairs) }
        ensures part { IsPartOf (entries_in self.new.pairs)
            (if result then map.insert (entries_in self.old.pairs) (rule, position)
            (stored_of found.entry) else entries_in self.old.pairs) }
        ensures kept { IsTrue result
            → map.get (entries_in self.new.pairs) (rule, position) ≡ Some (stored_of found.entry) }
        ensures all { 0 < self.old.capacity → self.new.allocation_failed ≡ false
            → (map.len (entries_in self.old.pairs) < self.old.capacity)
            ⊎ IsTrue (map.contains_key (entries_in self.old.pairs) (rule, position))
            → entries_in self.new.pairs
            ≡ map.insert (entries_in self.old.pairs) (rule, position) (stored_of found.entry) }
        ensures capacity { self.new.capacity ≡ self.old.capacity }
        ensures allocation_failed { IsTrue self.old.allocation_failed → IsTrue self.new.allocation_failed }
    {
        self.store(rule, position, found)
    }
}
