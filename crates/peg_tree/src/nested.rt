//! Trees as nested JSON objects, built without recursion.
ghost use Rattle.std.specs.Prelude.{◌≡◌, ◌<◌, ◌≤◌, ◌∷◌, ◌++◌, ◌↔◌, [], IfOk, OnOk, IfSome, IfNone, length, map};
ghost use Rattle.serde_json.specs.View.{view};
ghost use Rattle.peg_tree.specs.Json.{max_levels, node_data, nested_data};
ghost use Rattle.peg_tree.specs.Built.{object_of, objects_of, take_values, left_after};
ghost use Rattle.peg_tree.specs.Names.{name_at};
ghost use Rattle.peg_tree.specs.Nodes.{RulesBelow};
ghost use Rattle.peg_tree.specs.Trees.{levels};

use crate::{Names, Tree, TreeNode};
use serde_json::{Value, json};
use std::alloc::{AllocError, Global};
use thiserror::Error;

/// The maximum number of levels of a tree in nested JSON.
pub const MAX_LEVELS: usize = 60;

/// Why a tree could not be converted to nested JSON.
#[derive(Clone, Copy, Debug, PartialEq, Eq, Error)]
pub enum JsonFault {
    /// The tree has more than `MAX_LEVELS` levels.
    #[error("the tree has too many levels")]
    TooDeep,
    /// An allocation failed.
    #[error("out of memory")]
    Memory,
}

impl From<AllocError> for JsonFault {
    ghost use Rattle.peg_tree.specs.declared.nested.JsonFault.TheVariants.{Memory};

    ghost from_gives = { λ _ fault. fault ≡ Memory };

    fn from(_error: AllocError) -> JsonFault {
        JsonFault::Memory
    }
}

/// Returns the tree as nested JSON: each node is `{"children":[..],"end":n,"rule":"..","start":n}`, with its children
/// in order. Returns `TooDeep` exactly if the tree has more than `MAX_LEVELS` levels. The levels are checked before
/// anything is allocated. Two passes over the nodes.
pub fn nested_json<N: Names>(alloc: Global, tree: &Tree, names: &N) -> Result<Value, JsonFault>
    requires { RulesBelow (length (N.names names.now)) tree.now }
    ensures value { IfOk result (λ value. nested_data (N.names names.now) tree.now ≡ view value ∷ []) }
    ensures shallow { OnOk result (levels tree.now ≤ max_levels) }
    ensures too_deep { (result ≡ Err JsonFault.TooDeep) ↔ (max_levels < levels tree.now) }
{
    if tree.depth() > MAX_LEVELS {
        return Err(JsonFault::TooDeep);
    }
    Ok(nested(alloc, tree, names)?)
}

// The JSON object of a tree, and the number of nodes of the tree.
#[derive(Drop)]
pub(crate) struct Built {
    value: Value,
    size: u64,
}

// Builds the objects from the last node to the first. Each node takes as its children the finished objects within its
// subtree size.
fn nested<N: Names>(alloc: Global, tree: &Tree, names: &N) -> Result<Value, AllocError>
    requires { RulesBelow (length (N.names names.now)) tree.now }
    ensures { IfOk result (λ value. nested_data (N.names names.now) tree.now ≡ view value ∷ []) }
{
    let rows = tree.rows();
    let mut stack = Vec::new(alloc);
    let mut at = rows.len();
    while at > 0 {
        at -= 1;
        let row = rows[at];
        let children = take_children(alloc, &mut stack, row.size - 1)?;
        let value = node_json(alloc, row, children, names)?;
        let size = row.size;
        stack.push(Built { value, size })?;
    }
    match stack.pop() {
        Some(root) => Ok(root.value),
        None => unreachable!(),
    }
}

// Pops the objects that together have `count` nodes, as a list of children.
fn take_children(
    alloc: Global,
    stack: &mut Vec<Built>,
    count: u64,
) -> Result<Vec<Value>, AllocError>
    ensures taken { IfOk result (λ children. map view children.items ≡ take_values count (objects_of stack.old.items)) }
    ensures left { IfOk result (λ children. objects_of stack.new.items
        ≡ left_after count (objects_of stack.old.items)) }
{
    let mut children = Vec::new(alloc);
    let mut left = count;
    while let Some(built) = pop_within(stack, left) {
        left -= built.size;
        children.push(built.value)?;
    }
    Ok(children)
}

// Pops the top object if it has at most `limit` nodes.
fn pop_within(stack: &mut Vec<Built>, limit: u64) -> Option<Built>
    ensures some { IfSome result (λ built. objects_of stack.old.items ≡ object_of built ∷ objects_of stack.new.items) }
    ensures few { IfSome result (λ built. built.size ≤ limit) }
    ensures shorter { IfSome result (λ built. length stack.new.items < length stack.old.items) }
    ensures same { IfNone result (stack.new.items ≡ stack.old.items) }
    ensures none { IfNone result (take_values limit (objects_of stack.old.items) ≡ []) }
    ensures rest { IfNone result (left_after limit (objects_of stack.old.items) ≡ objects_of stack.old.items) }
{
    match stack.last() {
        Some(top) if top.size <= limit => stack.pop(),
        _ => None,
    }
}

fn node_json<N: Names>(
    alloc: Global,
    node: TreeNode,
    children: Vec<Value>,
    names: &N,
) -> Result<Value, AllocError>
    requires { node.rule < length (N.names names.now) }
    ensures { IfOk result (λ value. view value
        ≡ node_data (name_at (N.names names.now) node.rule) node.span.start node.span.end (map view children.items)) }
{
    let name = names.name(node.rule);
    json!(in alloc; {
        "children": children,
        "end": (node.span.end),
        "rule": name,
        "start": (node.span.start)
    })
}
