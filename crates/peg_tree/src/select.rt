//! Selecting the nodes of some rules.
ghost use Rattle.std.specs.Prelude.{◌≡◌, ◌+◌, ◌<◌, ◌∷◌, ◌++◌, [], IfOk, OnOk, drop, length, map};
ghost use Rattle.peg_tree.specs.Rows.{row_of, rows_of, IsOneTree};
ghost use Rattle.peg_tree.specs.Selected.{has_rule, selected};
ghost use Rattle.peg_tree.specs.SelectedNodes.{AreShownCounts, shown_count, shown_nodes};
ghost use Rattle.peg_tree.specs.TreesOfRows.{trees_of, IsForest};

use crate::{RuleSet, TreeNode};
use std::alloc::{AllocError, Global};

// Returns the root and the nodes of shown rules, with their new sizes. Two passes.
pub(crate) fn select_in(
    alloc: Global,
    rows: &[TreeNode],
    shown: &RuleSet,
) -> Result<Vec<TreeNode>, AllocError>
    requires { IsOneTree (map row_of rows.now) }
    ensures { IfOk result (λ nodes. map row_of nodes.items
        ≡ rows_of (selected (has_rule shown.now) (trees_of (map row_of rows.now)))) }
{
    let root = rows[0];
    let below = &rows[1..];
    let counts = count_shown(alloc, below, shown)?;
    let size = 1 + counts[below.len()];
    let mut nodes = Vec::with_capacity(alloc, size)?;
    nodes.push(resized(root, size))?;
    'below: for at in 0..below.len() {
        add_shown(&mut nodes, below, at, shown, &counts)?;
    }
    Ok(nodes)
}

// Appends the node at this index, with its new size, if it is shown.
fn add_shown(
    nodes: &mut Vec<TreeNode>,
    below: &[TreeNode],
    at: usize,
    shown: &RuleSet,
    counts: &[usize],
) -> Result<(), AllocError>
    requires forest { IsForest (map row_of below.now) }
    requires within { at < length below.now }
    requires counts { AreShownCounts (has_rule shown.now) below.now counts.now }
    ensures { OnOk result (
        map row_of nodes.new.items ++ shown_nodes (has_rule shown.now) (map row_of (drop (at + 1) below.now))
        ≡ map row_of nodes.old.items ++ shown_nodes (has_rule shown.now) (map row_of (drop at below.now))) }
{
    let node = below[at];
    if shown.contains(node.rule) {
        let size = counts[at + node.size as usize] - counts[at];
        nodes.push(resized(node, size))?;
    }
    Ok(())
}

// The node with another size.
fn resized(node: TreeNode, size: usize) -> TreeNode
    ensures { row_of result ≡ record (row_of node) { size = size } }
{
    TreeNode {
        size: size as u64,
        ..node
    }
}

// Returns the number of shown nodes before each node, and last that of all nodes.
fn count_shown(alloc: Global, rows: &[TreeNode], shown: &RuleSet) -> Result<Vec<usize>, AllocError>
    ensures { IfOk result (λ counts. AreShownCounts (has_rule shown.now) rows.now counts.items) }
{
    let mut counts = Vec::with_capacity(alloc, rows.len() + 1)?;
    let mut count = 0;
    counts.push(count)?;
    'rows: for row in rows {
        count += shown_nodes_at(*row, shown);
        counts.push(count)?;
    }
    Ok(counts)
}

// 1 if a node is shown, otherwise 0.
fn shown_nodes_at(row: TreeNode, shown: &RuleSet) -> usize
    ensures { result ≡ shown_count (has_rule shown.now) (row_of row ∷ []) }
{
    if shown.contains(row.rule) { 1 } else { 0 }
}
