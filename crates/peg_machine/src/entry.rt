//! Entries of the machine's stack.

/// A stack entry: an active call of a rule, or a choice point. It stores the number of nodes at the time of its push.
#[derive(Clone, Copy, Debug)]
pub(crate) enum Entry {
    /// An active call: its rule, its start, and the instruction to return to. Its node, if its rule is shown, is at
    /// index `rows`.
    Frame {
        rule: u32,
        start: u32,
        return_pc: u32,
        rows: usize,
    },
    /// A choice point: the instruction and the position to resume at on failure. The nodes are truncated to `rows`.
    ChoicePoint {
        pc: u32,
        position: u32,
        rows: usize,
    },
}
