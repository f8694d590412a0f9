//! How much a store may hold before it is emptied.

// The number of items at which a store is emptied at first.
const FIRST_ITEM_LIMIT: usize = 1_048_576;

// The number of items for each byte of progress in the text that are worth storing anew.
const ITEMS_PER_BYTE: usize = 1_024;

/// The number of items that a store may hold, and how far in the text its results reach.
///
/// A store is emptied as a whole when it has more items than its limit, and four times as many as there are nodes. If
/// its results are still needed then, as in a deep nest, they are computed again before a result ends further in the
/// text. So the limit is doubled if the results since the store was emptied last hardly reach further. A doubled limit
/// is met at most once more for the same part of the text, so all that is computed again takes linear time.
#[derive(Clone, Copy, Debug, PartialEq, Eq)]
pub(crate) struct Room {
    item_limit: usize,
    // The greatest end of a match so far, and when the store was emptied last.
    furthest: u32,
    emptied_at: u32,
}

impl Room {
    /// Returns the room of a new store.
    pub(crate) fn new() -> Room {
        Room {
            item_limit: FIRST_ITEM_LIMIT,
            furthest: 0,
            emptied_at: 0,
        }
    }

    /// Notes the end of a match.
    pub(crate) fn note_end(&mut self, end: u32) {
        self.furthest = self.furthest.max(end);
    }

    /// Returns whether a store with so many items is emptied, given the number of nodes.
    pub(crate) fn is_exceeded(&self, items: usize, nodes: usize) -> bool {
        items > self.item_limit && items / 4 > nodes
    }

    /// Notes that the store is emptied.
    pub(crate) fn note_emptied(&mut self) {
        let progress = self.furthest.saturating_sub(self.emptied_at) as usize;
        if progress < self.item_limit / ITEMS_PER_BYTE {
            self.item_limit = self.item_limit.saturating_mul(2);
        }
        self.emptied_at = self.furthest;
    }
}
