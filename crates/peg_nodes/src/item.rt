//! Items: nodes, and links to ranges of the store.
use peg_tree::TreeNode;

/// A stored result: a range of the store, and the number of nodes that it denotes.
#[derive(Clone, Copy, Debug)]
pub struct Link {
    pub(crate) start: usize,
    pub(crate) len: usize,
    pub(crate) count: u64,
}

/// A node, or a link in the place of the nodes of a stored result.
#[derive(Clone, Copy, Debug)]
pub enum Item {
    Node(TreeNode),
    Stored(Link),
}

/// The place of an open node: its index among the items, and the number of nodes before it.
#[derive(Clone, Copy, Debug)]
pub struct OpenNode {
    pub item: usize,
    pub before: usize,
}
