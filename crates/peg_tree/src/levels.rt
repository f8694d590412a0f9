//! The levels of a tree's nodes.
ghost use Rattle.std.specs.Prelude.{◌≡◌, ◌<◌, ◌≤◌, IfOk, map, length, reverse};
ghost use Rattle.std.specs.Vec.{vec_capacity};
ghost use Rattle.peg_tree.specs.Rows.{row_of, IsOneTree};
ghost use Rattle.peg_tree.specs.TreesOfRows.{trees_of};
ghost use Rattle.peg_tree.specs.Levels.{levels_of, open_at};

use crate::TreeNode;
use std::alloc::{AllocError, Global};

// Computes the level of each node; the root has level 1. One pass, with a stack of the ends of the node's ancestors,
// innermost last.
pub(crate) fn levels_in(alloc: Global, rows: &[TreeNode]) -> Result<Vec<usize>, AllocError>
    requires { IsOneTree (map row_of rows.now) }
    ensures { IfOk result (λ levels. levels.items ≡ levels_of 1 (trees_of (map row_of rows.now))) }
{
    let mut ends = Vec::new(alloc);
    let mut levels = Vec::new(alloc);
    for at in 0..rows.len() {
        close_ended(&mut ends, at);
        levels.push(1 + ends.len())?;
        let row = rows[at];
        ends.push(at + row.size as usize)?;
    }
    Ok(levels)
}

// Pops the ends of the nodes whose subtrees end at or before node number `at`.
pub(crate) fn close_ended(ends: &mut Vec<usize>, at: usize)
    ensures ended { reverse ends.new.items ≡ open_at at (reverse ends.old.items) }
    ensures capacity { vec_capacity ends.new ≡ vec_capacity ends.old }
{
    while let Some(end) = ends.last() {
        if *end > at {
            return;
        }
        let _ = ends.pop();
    }
}
