//! Which node lists are a single tree.
ghost use Rattle.std.specs.Prelude.{◌≡◌, ◌↔◌, ◌∷◌, drop, map, IsTrue};
ghost use Rattle.peg_tree.specs.Rows.{row_of, IsOneTree};
ghost use Rattle.peg_tree.specs.Trees.{nodes};
ghost use Rattle.peg_tree.specs.TreesOfRows.{trees_of, first_trees, IsForest};

use crate::TreeNode;

/// Returns whether the nodes are exactly one tree in preorder, judged by their sizes. The first node's subtree must be
/// the whole list, and each subtree after its root must consist of whole subtrees. Linear in the number of nodes.
pub fn one_tree(rows: &[TreeNode]) -> bool
    ensures { IsTrue result ↔ IsOneTree (map row_of rows.now) }
{
    match rows.first() {
        None => false,
        Some(root) => root.size == rows.len() as u64 && is_forest(rows),
    }
}

// Whether the nodes are adjacent whole trees. Goes from the last node to the first and steps over the children of each.
// A node is the child of at most one node, so there are no more such steps than nodes.
fn is_forest(rows: &[TreeNode]) -> bool
    ensures { IsTrue result ↔ IsForest (map row_of rows.now) }
{
    let mut at = rows.len();
    while at > 0 {
        let row = rows[at - 1];
        if row.size == 0 {
            return false;
        }
        if !are_whole_trees(&rows[at..], row.size - 1) {
            return false;
        }
        at -= 1;
    }
    true
}

// Whether the first `count` nodes are whole trees.
fn are_whole_trees(rows: &[TreeNode], count: u64) -> bool
    requires { IsForest (map row_of rows.now) }
    ensures { IsTrue result ↔ (nodes (first_trees count (trees_of (map row_of rows.now))) ≡ count) }
{
    let mut at = 0;
    let mut left = count;
    while left > 0 {
        if at >= rows.len() {
            return false;
        }
        let tree = rows[at];
        if tree.size > left {
            return false;
        }
        at += tree.size as usize;
        left -= tree.size;
    }
    true
}
