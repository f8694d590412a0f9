//! The interface of a memo.
ghost use Rattle.std.specs.Prelude.{◌≡◌, ◌<◌, ◌⊎◌, ◌↔◌, ℕ, Bool, false, Some, option_map};
ghost use Rattle.std.specs.Prelude.{if◌then◌else◌, IfSome, IsTrue};
ghost use Rattle.std.specs.FinMap as map;
ghost use Rattle.peg_memo.specs.MemoMap.{MemoMap, IsPartOf};
ghost use Rattle.peg_memo.specs.StoredResult.{stored_of};

use crate::Found;

/// A memo: stores the results of calls, by rule and position. A memo with capacity evicts nothing in `touch`. In `keep`
/// it may evict entries if it is full or an allocation has failed. A memo without capacity may evict entries in either.
pub trait Keep {
    // the entries
    ghost entries: { Self → MemoMap };

    // how many entries the memo holds before it may evict one, unless an allocation fails; it never changes
    ghost capacity: { Self → ℕ };

    // whether an allocation has failed; it never becomes false again
    ghost allocation_failed: { Self → Bool };

    // whether the memo can hold no entry, since an allocation has failed
    ghost out_of_memory: { Self → Bool };

    /// Returns whether the memo has no entries.
    fn is_empty(&self) -> bool
        ensures { IsTrue result ↔ (map.len (entries self.now) ≡ 0) };

    /// Returns whether the memo may ever store a result. It returns false only for a memo without capacity. For such a
    /// memo the machine may omit lookups and stores.
    fn may_store(&self) -> bool
        ensures { ¬ IsTrue result → capacity self.now ≡ 0 }
    {
        true
    }

    /// Returns whether the memo is out of memory: an allocation has failed, and no entry can be held without it. A run
    /// then ends at the next call of a rule, since without a memo it could take exponential time.
    fn is_out_of_memory(&self) -> bool
        ensures { result ≡ out_of_memory self.now };

    /// Marks the entry of a rule at a position as used, if there is one.
    fn touch(&mut self, rule: u32, position: u32)
        ensures part { IsPartOf (entries self.new) (entries self.old) }
        ensures same { 0 < capacity self.old → entries self.new ≡ entries self.old }
        ensures capacity { capacity self.new ≡ capacity self.old }
        ensures allocation_failed { IsTrue (allocation_failed self.old) → IsTrue (allocation_failed self.new) };

    /// Returns the entry of a rule at a position, or `None`. A memo with capacity finds every entry that it has.
    fn find(&self, rule: u32, position: u32) -> Option<Found<'_>>
        ensures entries { IfSome result (λ found. map.get (entries self.now) (rule, position) ≡ Some
            (stored_of found)) }
        ensures all { 0 < capacity self.now
            → option_map stored_of result ≡ map.get (entries self.now) (rule, position) };

    /// Stores the result of a rule at a position, and replaces an entry that they have. Returns whether the result is
    /// stored now.
    fn keep(&mut self, rule: u32, position: u32, found: Found<'_>) -> bool
        ensures part { IsPartOf (entries self.new)
            (if result then map.insert (entries self.old) (rule, position)
            (stored_of found.entry) else entries self.old) }
        ensures kept { IsTrue result → map.get (entries self.new) (rule, position) ≡ Some (stored_of found.entry) }
        ensures all { 0 < capacity self.old → allocation_failed self.new ≡ false
            → (map.len (entries self.old) < capacity self.old)
            ⊎ IsTrue (map.contains_key (entries self.old) (rule, position))
            → entries self.new ≡ map.insert (entries self.old) (rule, position) (stored_of found.entry) }
        ensures capacity { capacity self.new ≡ capacity self.old }
        ensures allocation_failed { IsTrue (allocation_failed self.old) → IsTrue (allocation_failed self.new) };
}
