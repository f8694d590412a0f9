//! A node in the node list of a tree.
use peg_bytes::Span;

/// A node in the preorder node list of a tree: the number of its rule, the span of the text that it matched, and the
/// number of nodes in its subtree, itself included.
#[derive(Clone, Copy, Debug, PartialEq, Eq)]
pub struct TreeNode {
    pub rule: u32,
    pub span: Span,
    pub size: u64,
}
