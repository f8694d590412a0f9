//! A stored result whose nodes are a link.
use peg_nodes::Link;

/// The result of a call of a rule, as the table stores it.
#[derive(Clone, Copy, Debug)]
pub enum LinkedResult {
    /// The rule failed.
    Failed,
    /// The rule matched up to the byte offset `end`; `link` denotes its nodes.
    Matched { end: u32, link: Link },
}
