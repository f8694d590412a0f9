//! The nodes of trees, for C.
ghost use Rattle.std.specs.Prelude.{◌≡◌, ℕ, ◌+◌, ◌-◌, ◌++◌, ◌≤◌, ◌<◌, drop, length, map, min, slice_get, Some, take};
ghost use Rattle.peg_tree.specs.Rows.{row_of};
ghost use Rattle.peg_handle.specs.Nodes.{match_nodes, nodes_of_rows};

use crate::content::Match;
use peg_tree::{Parsed, TreeNode};

/// A node of a parse tree: the number of its rule, the span of the text that it matched, its level, and the number of
/// nodes in its subtree, itself included. The root has level 1. A level past 4,294,967,295 is given as that number.
#[repr(C)]
#[derive(Clone, Copy, Debug, PartialEq, Eq)]
pub struct Node {
    pub rule: u32,
    pub start: u32,
    pub end: u32,
    pub level: u32,
    pub size: u64,
}

/// Copies nodes from number `from` on to the start of `out`, as many as there are and fit. Returns their number.
pub fn copy_nodes(found: &Match, from: usize, out: &mut [Node]) -> usize
    ensures count { result ≡ min (length out.old) (length (match_nodes found.now) - from) }
    ensures copied { (place : ℕ) → place < result
        → slice_get out.new place ≡ slice_get (match_nodes found.now) (from + place) }
    ensures rest { (place : ℕ) → result ≤ place → slice_get out.new place ≡ slice_get out.old place }
{
    match &found.answer.outcome.result {
        Parsed::Matched { tree, .. } => copy_rows(tree.nodes(), &found.levels, from, out),
        Parsed::Failed => 0,
    }
}

// Copies the nodes of a list, with these levels.
fn copy_rows(nodes: &[TreeNode], levels: &[usize], from: usize, out: &mut [Node]) -> usize
    requires { length levels.now ≡ length nodes.now }
    ensures count { result ≡ min (length out.old) (length nodes.now - from) }
    ensures copied { (place : ℕ) → place < result → slice_get out.new place
        ≡ slice_get (nodes_of_rows (map row_of nodes.now) levels.now) (from + place) }
    ensures rest { (place : ℕ) → result ≤ place → slice_get out.new place ≡ slice_get out.old place }
{
    if from >= nodes.len() {
        return 0;
    }
    let count = (nodes.len() - from).min(out.len());
    'nodes: for i in 0..count {
        out[i] = node_at(nodes, levels, from + i);
    }
    count
}

/// Writes the nodes of an answer after the first `used` nodes of `out`.
pub(crate) fn append_nodes(found: &Match, used: usize, out: &mut [Node])
    requires { used + length (match_nodes found.now) ≤ length out.old }
    ensures added { take (used + length (match_nodes found.now)) out.new ≡ take used out.old ++ match_nodes found.now }
    ensures others { drop (used + length (match_nodes found.now)) out.new
        ≡ drop (used + length (match_nodes found.now)) out.old }
{
    match &found.answer.outcome.result {
        Parsed::Matched { tree, .. } => append_rows(tree.nodes(), &found.levels, used, out),
        Parsed::Failed => {}
    }
}

// Writes the nodes of a list, with these levels, after the first `used` nodes of `out`.
fn append_rows(nodes: &[TreeNode], levels: &[usize], used: usize, out: &mut [Node])
    requires levels { length levels.now ≡ length nodes.now }
    requires room { used + length nodes.now ≤ length out.old }
    ensures added { take (used + length nodes.now) out.new
        ≡ take used out.old ++ nodes_of_rows (map row_of nodes.now) levels.now }
    ensures others { drop (used + length nodes.now) out.new ≡ drop (used + length nodes.now) out.old }
{
    'nodes: for i in 0..nodes.len() {
        out[used + i] = node_at(nodes, levels, i);
    }
}

// The node of a list with this number, with its level.
#[tactic(auto, using(crate::proofs::NodeLemmas::get_nodes_of_rows))]
fn node_at(nodes: &[TreeNode], levels: &[usize], number: usize) -> Node
    requires within { number < length nodes.now }
    requires levels { length levels.now ≡ length nodes.now }
    ensures { slice_get (nodes_of_rows (map row_of nodes.now) levels.now) number ≡ Some result }
{
    let node = nodes[number];
    Node {
        rule: node.rule,
        start: node.span.start,
        end: node.span.end,
        level: levels[number].min(u32::MAX as usize) as u32,
        size: node.size,
    }
}
