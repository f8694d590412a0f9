//! A result as a memo stores it.
ghost use Rattle.std.specs.Prelude.{◌≡◌, IfOk};
ghost use Rattle.peg_memo.specs.StoredResult.{stored_of, stored_node_count};
ghost use Rattle.peg_memo.specs.Stored.{stored_in};

use crate::Found;
use peg_tree::TreeNode;
use std::alloc::{AllocError, Global};

/// A result that owns its nodes.
#[derive(Drop)]
pub enum Stored {
    Failed,
    Done { end: u32, nodes: Vec<TreeNode> },
}

// Copies a result with its nodes. The only error is a failed allocation.
pub fn to_stored(alloc: Global, found: Found<'_>) -> Result<Stored, AllocError>
    ensures { IfOk result (λ stored. stored_in stored ≡ stored_of found.entry) }
{
    match found {
        Found::Failed => Ok(Stored::Failed),
        Found::Done { end, nodes } => Ok(Stored::Done {
            end,
            nodes: Vec::from_slice(alloc, nodes)?,
        }),
    }
}

// Returns the result with its nodes borrowed.
pub fn as_found(stored: &Stored) -> Found<'_>
    ensures { stored_of result ≡ stored_in stored.now }
{
    match stored {
        Stored::Failed => Found::Failed,
        Stored::Done { end, nodes } => Found::Done {
            end: *end,
            nodes: nodes.as_slice(),
        },
    }
}

// Returns the number of nodes of a stored result.
pub fn node_count(stored: &Stored) -> usize
    ensures { result ≡ stored_node_count (stored_in stored.now) }
{
    match stored {
        Stored::Failed => 0,
        Stored::Done { nodes, .. } => nodes.len(),
    }
}
