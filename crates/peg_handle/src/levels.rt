//! The levels of a tree's nodes.
ghost use Rattle.std.specs.Prelude.{◌≡◌, IfOk, map, reverse};
ghost use Rattle.peg_tree.specs.Levels.{levels_of, open_at};

use peg_tree::{Tree, TreeNode};
use std::alloc::{AllocError, Global};

// Computes the level of each node of a tree, in preorder; the root has level 1. One pass, with a stack of the ends of
// the node's ancestors. The ends have 128 bits, so that no sum overflows.
#[tactic(auto, using(crate::proofs::LevelLemmas::levels_of_rows_step))]
pub(crate) fn node_levels(alloc: Global, tree: &Tree) -> Result<Vec<usize>, AllocError>
    ensures { IfOk result (λ levels. levels.items ≡ levels_of 1 tree.now) }
{
    let nodes = tree.nodes();
    let mut ends = Vec::new(alloc);
    let mut levels = Vec::new(alloc);
    for at in 0..nodes.len() {
        close_ended(&mut ends, at as u128);
        levels.push(1 + ends.len())?;
        let node = nodes[at];
        ends.push(at as u128 + node.size as u128)?;
    }
    Ok(levels)
}

// Pops the ends of the nodes whose subtrees end at or before node number `at`.
fn close_ended(ends: &mut Vec<u128>, at: u128)
    ensures { reverse ends.new.items ≡ open_at at (reverse ends.old.items) }
{
    while let Some(end) = ends.last() {
        if *end > at {
            return;
        }
        let _ = ends.pop();
    }
}
