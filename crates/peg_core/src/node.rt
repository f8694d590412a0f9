//! Core forms that name their parts by number.
use peg_bytes::{ByteSet, Span};

/// A core form (Ford 2004, section 3.1) that names its parts by their numbers.
#[derive(Clone, Copy, Debug, PartialEq, Eq)]
pub enum Node {
    /// The empty form: matches the empty string and succeeds.
    Empty,
    /// Matches one byte of the set. A failed test is recorded for this terminal.
    Test { set: ByteSet, terminal: u32 },
    /// Calls the rule with this number.
    Rule(u32),
    /// Matches both parts, one after the other.
    Seq(u32, u32),
    /// Matches the first part, or the second at the same position if the first fails.
    Choice(u32, u32),
    /// Matches the part repeatedly, until it fails.
    Star(u32),
    /// Consumes nothing and succeeds if the part fails.
    Not(u32),
}

/// A node, and the span of the written star or plus of a star. Other nodes have no meaningful span.
#[derive(Clone, Copy, Debug)]
pub(crate) struct Entry {
    pub(crate) node: Node,
    pub(crate) origin: Span,
}
