//! The summary of an answer.
ghost use Rattle.std.specs.Prelude.{◌≡◌, length};
ghost use Rattle.peg_handle.specs.Nodes.{parsed_nodes};
ghost use Rattle.peg_handle.specs.Summaries.{consumed_bytes, match_summary, matched_flag};

use crate::content::Match;
use peg_tree::Parsed;

/// The summary of an answer.
#[repr(C)]
#[derive(Clone, Copy, Debug, PartialEq, Eq)]
pub struct Summary {
    /// 1 if a prefix of the text matched, else 0.
    pub matched: u32,
    /// The length of the prefix that matched, in bytes; 0 if none did.
    pub consumed: u32,
    /// The greatest position at which a terminal failed, or 0 if none failed.
    pub furthest: u32,
    /// The number of nodes of the tree; 0 if no prefix matched.
    pub nodes: u64,
    /// The number of terminals that failed at the furthest position.
    pub expected: u64,
    /// The number of instructions executed.
    pub steps: u64,
}

/// Returns the summary of an answer. Constant time.
pub fn summary_of(found: &Match) -> Summary
    ensures { result ≡ match_summary found.now }
{
    let outcome = &found.answer.outcome;
    Summary {
        matched: matched_flag(&outcome.result),
        consumed: consumed_bytes(&outcome.result),
        furthest: outcome.far,
        nodes: node_count(&outcome.result) as u64,
        expected: found.expected.len() as u64,
        steps: found.answer.steps,
    }
}

fn matched_flag(parsed: &Parsed) -> u32
    ensures { result ≡ matched_flag parsed.now }
{
    match parsed {
        Parsed::Matched { .. } => 1,
        Parsed::Failed => 0,
    }
}

fn consumed_bytes(parsed: &Parsed) -> u32
    ensures { result ≡ consumed_bytes parsed.now }
{
    match parsed {
        Parsed::Matched { end, .. } => *end,
        Parsed::Failed => 0,
    }
}

fn node_count(parsed: &Parsed) -> usize
    ensures { result ≡ length (parsed_nodes parsed.now) }
{
    match parsed {
        Parsed::Matched { tree, .. } => tree.nodes().len(),
        Parsed::Failed => 0,
    }
}
