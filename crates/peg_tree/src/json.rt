//! Trees as JSON node lists.
ghost use Rattle.std.specs.Prelude.{◌≡◌, ◌<◌, IfOk, length, map};
ghost use Rattle.serde_json.specs.Data.{array};
ghost use Rattle.serde_json.specs.View.{view, items_of};
ghost use Rattle.peg_tree.specs.Json.{row_data, rows_data};
ghost use Rattle.peg_tree.specs.Names.{name_at};
ghost use Rattle.peg_tree.specs.Nodes.{RulesBelow};

use crate::levels::levels_in;
use crate::{Names, Tree, TreeNode};
use serde_json::{Value, json};
use std::alloc::{AllocError, Global};

/// Returns the preorder list of the nodes as JSON, each as `[level,"rule",start,end]`. The root has level 1. One pass
/// over the nodes.
pub fn rows_json<N: Names>(alloc: Global, tree: &Tree, names: &N) -> Result<Value, AllocError>
    requires { RulesBelow (length (N.names names.now)) tree.now }
    ensures { IfOk result (λ value. view value ≡ array (items_of (rows_data (N.names names.now) 1 tree.now))) }
{
    let rows = tree.rows();
    let levels = levels_in(alloc, rows)?;
    let mut list = Vec::new(alloc);
    for at in 0..rows.len() {
        list.push(row_json(alloc, levels[at], rows[at], names)?)?;
    }
    Ok(Value::Array(list))
}

fn row_json<N: Names>(
    alloc: Global,
    level: usize,
    node: TreeNode,
    names: &N,
) -> Result<Value, AllocError>
    requires { node.rule < length (N.names names.now) }
    ensures { IfOk result (λ value. view value
        ≡ row_data level (name_at (N.names names.now) node.rule) node.span.start node.span.end) }
{
    let name = names.name(node.rule);
    json!(in alloc; [level, name, (node.span.start), (node.span.end)])
}
