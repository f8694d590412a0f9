//! The size of a result.

/// The size of a result.
#[derive(Clone, Copy)]
pub struct Size {
    /// The number of items that are moved to store it, 0 for a failure.
    pub items: u64,
    /// The number of nodes, 0 for a failure.
    pub nodes: u64,
    /// The number of bytes that the match consumes, 0 for a failure.
    pub bytes: u64,
    pub failed: bool,
}

impl Size {
    /// Returns the size of a failure.
    pub fn of_failure() -> Size {
        Size {
            items: 0,
            nodes: 0,
            bytes: 0,
            failed: true,
        }
    }

    /// Returns the size of a match between two byte offsets.
    pub fn of_match(items: u64, nodes: u64, start: u32, end: u32) -> Size {
        Size {
            items,
            nodes,
            bytes: u64::from(end.saturating_sub(start)),
            failed: false,
        }
    }
}
