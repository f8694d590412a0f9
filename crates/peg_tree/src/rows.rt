//! Navigation in the node list of a tree.
ghost use Rattle.std.specs.Prelude.{◌≡◌, ◌+◌, ◌<◌, length, map, nat_lt};
ghost use Rattle.std.specs.List.{list_all};
ghost use Rattle.peg_tree.specs.Rows.{row_of, IsOneTree};
ghost use Rattle.peg_tree.specs.Trees.{nodes};
ghost use Rattle.peg_tree.specs.TreesOfRows.{trees_of};
ghost use Rattle.peg_tree.specs.Nodes.{node_at, root_count, child_at, first_root, trees_from};

use crate::TreeNode;

// Returns the node with number `node`.
pub(crate) fn node_in(rows: &[TreeNode], node: usize) -> TreeNode
    requires tree { IsOneTree (map row_of rows.now) }
    requires within { node < length rows.now }
    ensures rule { result.rule ≡ (node_at (trees_of (map row_of rows.now)) node).rule }
    ensures start { result.span.start ≡ (node_at (trees_of (map row_of rows.now)) node).start }
    ensures end { result.span.end ≡ (node_at (trees_of (map row_of rows.now)) node).end }
    ensures size { result.size ≡ 1 + nodes (node_at (trees_of (map row_of rows.now)) node).children }
{
    rows[node]
}

// Counts the children of a node. Each step skips one child's subtree.
pub(crate) fn count_in(rows: &[TreeNode], node: usize) -> usize
    requires tree { IsOneTree (map row_of rows.now) }
    requires within { node < length rows.now }
    ensures { result ≡ root_count (node_at (trees_of (map row_of rows.now)) node).children }
{
    let end = node + node_in(rows, node).size as usize;
    let mut at = node + 1;
    let mut count = 0;
    while at < end {
        let child = rows[at];
        at += child.size as usize;
        count += 1;
    }
    count
}

// Returns the number of the child at index `nth`. Each step skips one earlier child's subtree.
pub(crate) fn child_in(rows: &[TreeNode], node: usize, nth: usize) -> usize
    requires tree { IsOneTree (map row_of rows.now) }
    requires within { node < length rows.now }
    requires nth { nth < root_count (node_at (trees_of (map row_of rows.now)) node).children }
    ensures number { result ≡ child_at (trees_of (map row_of rows.now)) node nth }
    ensures within { result < nodes (trees_of (map row_of rows.now)) }
    ensures node { node_at (trees_of (map row_of rows.now)) result
        ≡ first_root (trees_from nth (node_at (trees_of (map row_of rows.now)) node).children) }
{
    let mut at = node + 1;
    for _before in 0..nth {
        let child = rows[at];
        at += child.size as usize;
    }
    at
}

// Whether the rule number of every node is below `rules`.
pub(crate) fn fit_in(rows: &[TreeNode], rules: u32) -> bool
    ensures { result ≡ list_all (λ row. nat_lt row.rule rules) rows.now }
{
    rows.iter().all(|row| row.rule < rules)
}
