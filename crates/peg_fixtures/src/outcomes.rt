//! Expected outcomes of parses.
ghost use Rattle.std.specs.Prelude.{◌≡◌, ◌≤◌, [], Some, None, IsTrue};

use peg_bytes::Span;
use peg_tree::{Outcome, Parsed, Tree, TreeNode};

/// A node of a tree: its rule, its start, its end, and its number of children.
pub type Node = (u32, u32, u32, usize);

/// The expected outcome on a text: the end of the match, if any, the furthest failure, and the tree's nodes in
/// preorder.
#[derive(Clone, Copy, Debug)]
pub struct Case {
    pub text: &'static [u8],
    pub end: Option<u32>,
    pub far: u32,
    pub expected: &'static [u32],
    pub nodes: &'static [Node],
}

/// Returns the case of a match.
pub fn matched(
    text: &'static [u8],
    end: u32,
    far: u32,
    expected: &'static [u32],
    nodes: &'static [Node],
) -> Case
    ensures text { result.text.now ≡ text.now }
    ensures end { result.end ≡ Some end }
    ensures far { result.far ≡ far }
    ensures expected { result.expected.now ≡ expected.now }
    ensures nodes { result.nodes.now ≡ nodes.now }
{
    Case {
        text,
        end: Some(end),
        far,
        expected,
        nodes,
    }
}

/// Returns the case of a failure.
pub fn failed(text: &'static [u8], far: u32, expected: &'static [u32]) -> Case
    ensures text { result.text.now ≡ text.now }
    ensures end { result.end ≡ None }
    ensures far { result.far ≡ far }
    ensures expected { result.expected.now ≡ expected.now }
    ensures nodes { result.nodes.now ≡ [] }
{
    Case {
        text,
        end: None,
        far,
        expected,
        nodes: &[],
    }
}

impl Case {
    /// Returns whether an outcome is the expected one. Linear in the number of nodes.
    pub fn fits(&self, outcome: &Outcome) -> bool
        ensures far { IsTrue result → outcome.now.far ≡ self.now.far }
        ensures expected { IsTrue result → outcome.now.expected.items ≡ self.now.expected.now }
    {
        if outcome.far != self.far {
            return false;
        }
        if outcome.expected.as_slice() != self.expected {
            return false;
        }
        match &outcome.result {
            Parsed::Failed => self.end.is_none(),
            Parsed::Matched { end, tree } => {
                self.end == Some(*end) && have_nodes(self.nodes, tree)
            }
        }
    }
}

// Whether a tree has these nodes.
fn have_nodes(nodes: &[Node], tree: &Tree) -> bool {
    if nodes.len() != tree.len() {
        return false;
    }
    for (number, node) in nodes.iter().enumerate() {
        let span = tree.span(number);
        let seen = (
            tree.rule(number),
            span.start,
            span.end,
            tree.child_count(number),
        );
        if *node != seen {
            return false;
        }
    }
    true
}

/// Returns a node of a tree's node list.
pub fn node(rule: u32, start: u32, end: u32, size: u64) -> TreeNode
    requires { start ≤ end }
    ensures rule { result.rule ≡ rule }
    ensures start { result.span.start ≡ start }
    ensures end { result.span.end ≡ end }
    ensures size { result.size ≡ size }
{
    TreeNode {
        rule,
        span: Span::new(start, end),
        size,
    }
}
