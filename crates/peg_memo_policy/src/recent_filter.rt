//! A filter that says which results may be stored. It is consulted before the memo.
//!
//! Most calls that are looked up were never stored. A hash of its rule and position gives each call a flag. If the flag
//! isn't set, the memo need not be searched. Flags are set in the newer of two generations, for each result that is
//! stored or found. After as many new results as the memo has capacity, the newer generation becomes the older one, and
//! the flags of the older one are dropped. A result without a flag was neither stored nor found while that many others
//! were stored. The memo has evicted it by then, so no needed flag is lost.
use std::alloc::{AllocError, Global};

// The maximum number of words of a generation, which is 2^22 flags. With more than 2^18 entries, more lookups in the
// memo are in vain.
const MAX_WORDS: u64 = 65536;

// 64 flags of each generation, side by side.
#[derive(Clone, Copy)]
struct Flags {
    newer: u64,
    older: u64,
}

// The position of a call's flag.
#[derive(Clone, Copy)]
struct Bit {
    word: usize,
    flag: u64,
}

/// The calls that were stored or found recently, and some others by hash collisions.
#[derive(Drop)]
pub struct RecentFilter {
    words: Vec<Flags>,
    mask: u64,
    // The number of results stored in the newer generation, and its limit.
    stored: u32,
    limit: u32,
}

impl RecentFilter {
    /// Returns an empty filter for a memo of this capacity, with about 16 flags for each entry in each generation. The
    /// only error is a failed allocation.
    pub fn new(alloc: Global, capacity: u32) -> Result<RecentFilter, AllocError> {
        let count = u64::from(capacity)
            .div_ceil(4)
            .next_power_of_two()
            .min(MAX_WORDS);
        let none = Flags { newer: 0, older: 0 };
        Ok(RecentFilter {
            words: vec![in alloc; none; count as usize]?,
            mask: count.saturating_sub(1),
            stored: 0,
            limit: capacity,
        })
    }

    /// Returns whether the result of a rule at a position may be stored. It returns false only for a result that isn't.
    pub fn has(&self, rule: u32, position: u32) -> bool {
        let bit = self.bit(rule, position);
        match self.words.get(bit.word) {
            Some(flags) => (flags.newer | flags.older) & bit.flag != 0,
            None => false,
        }
    }

    /// Records that the result of a rule at a position was found.
    pub fn note_found(&mut self, rule: u32, position: u32) {
        let bit = self.bit(rule, position);
        if let Some(flags) = self.words.get_mut(bit.word) {
            flags.newer |= bit.flag;
        }
    }

    /// Records that the result of a rule at a position was stored.
    pub fn note_stored(&mut self, rule: u32, position: u32) {
        if self.stored >= self.limit {
            self.stored = 0;
            self.rotate();
        }
        self.stored = self.stored.saturating_add(1);
        self.note_found(rule, position);
    }

    // Makes the newer generation the older one.
    fn rotate(&mut self) {
        for flags in self.words.iter_mut() {
            *flags = Flags {
                newer: 0,
                older: flags.newer,
            };
        }
    }

    // The position of a call's flag. The high bits of a product depend on all bits of the rule and the position.
    fn bit(&self, rule: u32, position: u32) -> Bit {
        let asked = (u64::from(rule) << 32) | u64::from(position);
        let mixed = asked.wrapping_mul(0x9E37_79B9_7F4A_7C15) >> 40;
        Bit {
            word: ((mixed >> 6) & self.mask) as usize,
            flag: 1 << (mixed & 63),
        }
    }
}
