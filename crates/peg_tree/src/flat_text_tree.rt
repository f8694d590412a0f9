//! Serializing a tree as a list of nodes with their text.
ghost use Rattle.std.specs.Prelude.{◌≡◌, ◌+◌, ◌<◌, ◌∷◌, ◌++◌, [], OnOk, length, map};
ghost use Rattle.serde_json.specs.Data.{array};
ghost use Rattle.serde_json.specs.Events.{SendsValue};
ghost use Rattle.serde_json.specs.View.{items_of};
ghost use Rattle.peg_tree.specs.Json.{row_data};
ghost use Rattle.peg_tree.specs.Names.{name_at};
ghost use Rattle.peg_tree.specs.Nodes.{RulesBelow};
ghost use Rattle.peg_tree.specs.Rows.{row_of};
ghost use Rattle.peg_tree.specs.Sending.{RulesBelow-prop};
ghost use Rattle.peg_tree.specs.TextJson.{leaf_row_data, rows_text_data};
ghost use Rattle.peg_tree.specs.TextSending.{text_row};

use crate::flat_tree::{push_end, serialize_row};
use crate::levels::close_ended;
use crate::node_text::{bytes_between, serialize_bytes};
use crate::{Names, Tree, TreeNode};
use serde::{Described, Serialize, Serializer};
use std::alloc::Global;

/// A tree that `serde` serializes as the preorder list of its nodes, each as `[level,"rule",start,end]`. A node without
/// children has its text as a fifth item, which is `{"bytes":".."}` with hexadecimal digits if it is not UTF-8. The
/// root has level 1. Serialization takes one pass, linear in the nodes and in the text of those without children. If
/// an allocation fails, the serializer returns a custom error.
///
/// # Example
///
/// ```
/// let rows = serde_json::to_string(alloc, &FlatTextTree::new(alloc, &tree, grammar, text))?;
/// ```
#[derive(Drop)]
pub struct FlatTextTree<'a, N: Names> {
    alloc: Global,
    pub tree: &'a Tree,
    pub names: &'a N,
    pub text: &'a [u8],
    ghost below: { RulesBelow (length (N.names names.now)) tree.now } by { RulesBelow-prop (length
        (N.names names.now)) tree.now },
}

impl<'a, N: Names> FlatTextTree<'a, N> {
    /// Returns a serializable view of `tree` over `text`, with the names of its rules.
    pub fn new(alloc: Global, tree: &'a Tree, names: &'a N, text: &'a [u8]) -> FlatTextTree<'a, N>
        requires { RulesBelow (length (N.names names.now)) tree.now }
        ensures tree { result.tree.now ≡ tree.now }
        ensures names { result.names.now ≡ names.now }
        ensures text { result.text.now ≡ text.now }
    {
        FlatTextTree {
            alloc,
            tree,
            names,
            text,
        }
    }
}

impl<N: Names> Described for FlatTextTree<'_, N> {
    ghost writes = { λ rows. SendsValue (array (items_of (rows_text_data (N.names rows.names.now) rows.text.now 1
        rows.tree.now))) };
}

impl<N: Names> Serialize for FlatTextTree<'_, N> {
    fn serialize<S: Serializer>(&self, out: &mut S) -> Result<(), S::Error> {
        serialize_rows_with_text(self.alloc, self.tree, self.names, self.text, out)
    }
}

fn serialize_rows_with_text<N: Names, S: Serializer>(
    alloc: Global,
    tree: &Tree,
    names: &N,
    text: &[u8],
    out: &mut S,
) -> Result<(), S::Error>
    requires { RulesBelow (length (N.names names.now)) tree.now }
    ensures { OnOk result (SendsValue (array (items_of (rows_text_data (N.names names.now) text.now 1 tree.now)))
        (S.written out.old) (S.written out.new)) }
{
    let rows = tree.rows();
    let mut ends = Vec::new(alloc);
    out.begin_seq(Some(rows.len()))?;
    for at in 0..rows.len() {
        close_ended(&mut ends, at);
        let row = rows[at];
        serialize_text_row(alloc, 1 + ends.len(), row, names, text, out)?;
        push_end(&mut ends, at + row.size as usize, out)?;
    }
    out.end_seq()
}

// Serializes a node, with its text if its subtree is the node alone.
fn serialize_text_row<N: Names, S: Serializer>(
    alloc: Global,
    level: usize,
    node: TreeNode,
    names: &N,
    text: &[u8],
    out: &mut S,
) -> Result<(), S::Error>
    requires { node.rule < length (N.names names.now) }
    ensures { OnOk result (SendsValue (text_row (N.names names.now) text.now level (row_of node))
        (S.written out.old) (S.written out.new)) }
{
    if node.size == 1 {
        let bytes = bytes_between(text, node.span);
        serialize_leaf_row(alloc, level, node, names, bytes, out)
    } else {
        serialize_row(level, node, names, out)
    }
}

fn serialize_leaf_row<N: Names, S: Serializer>(
    alloc: Global,
    level: usize,
    node: TreeNode,
    names: &N,
    bytes: &[u8],
    out: &mut S,
) -> Result<(), S::Error>
    requires { node.rule < length (N.names names.now) }
    ensures { OnOk result (SendsValue (leaf_row_data level (name_at (N.names names.now) node.rule)
        node.span.start node.span.end bytes.now) (S.written out.old) (S.written out.new)) }
{
    out.begin_seq(Some(5))?;
    level.serialize(out)?;
    out.str(names.name(node.rule))?;
    node.span.start.serialize(out)?;
    node.span.end.serialize(out)?;
    serialize_bytes(alloc, bytes, out)?;
    out.end_seq()
}
