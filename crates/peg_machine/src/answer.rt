//! The answer of a run.
use peg_tree::Outcome;

/// The answer of a run of a program on a text.
#[derive(Debug, Drop)]
pub struct Answer {
    /// Whether a prefix of the text matched, its tree, and the furthest failure.
    pub outcome: Outcome,
    /// The number of instructions executed; `u64::MAX` if there are more.
    pub steps: u64,
}
