//! The outcome of a parse.
use crate::Tree;

/// The outcome of a parse, with its furthest failure.
#[derive(Debug, Drop)]
pub struct Outcome {
    pub result: Parsed,
    /// The furthest failure: the greatest position, in bytes, at which a terminal failed, or 0 if none failed.
    pub far: u32,
    /// The numbers of the terminals that failed at `far`, ascending and without duplicates.
    pub expected: Vec<u32>,
}

/// Whether a prefix of the text matched.
#[derive(Debug, Drop)]
pub enum Parsed {
    /// The bytes before `end` matched, with this parse tree.
    Matched { end: u32, tree: Tree },
    Failed,
}
