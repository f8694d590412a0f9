//! The result of a call of a rule.
use peg_tree::TreeNode;

/// The result of a call of a rule, as a memo lends it and takes it.
#[derive(Clone, Copy, Debug)]
pub enum Found<'a> {
    /// The rule failed.
    Failed,
    /// The rule matched up to the byte offset `end`; `nodes` is its tree, in preorder.
    Done { end: u32, nodes: &'a [TreeNode] },
}
