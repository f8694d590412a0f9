//! Serializing a tree as a list of nodes.
ghost use Rattle.std.specs.Prelude.{◌≡◌, ◌+◌, ◌<◌, ◌∷◌, ◌++◌, [], OnOk, length, map};
ghost use Rattle.serde.specs.Event.{Log};
ghost use Rattle.serde_json.specs.Data.{array};
ghost use Rattle.serde_json.specs.Events.{SendsValue};
ghost use Rattle.serde_json.specs.View.{items_of};
ghost use Rattle.peg_tree.specs.Json.{row_data, rows_data};
ghost use Rattle.peg_tree.specs.Names.{name_at};
ghost use Rattle.peg_tree.specs.Nodes.{RulesBelow};
ghost use Rattle.peg_tree.specs.Sending.{RulesBelow-prop};

use crate::levels::close_ended;
use crate::{Names, Tree, TreeNode};
use serde::{Described, Serialize, Serializer};
use std::alloc::Global;

/// A tree that `serde` serializes as the preorder list of its nodes, each as `[level,"rule",start,end]`. The root has
/// level 1. Serialization takes one pass and stores the ends of the open nodes. If an allocation fails, the serializer
/// returns a custom error.
#[derive(Drop)]
pub struct FlatTree<'a, N: Names> {
    alloc: Global,
    pub tree: &'a Tree,
    pub names: &'a N,
    ghost below: { RulesBelow (length (N.names names.now)) tree.now } by { RulesBelow-prop (length
        (N.names names.now)) tree.now },
}

impl<'a, N: Names> FlatTree<'a, N> {
    /// Returns a serializable view of `tree`, with the names of its rules.
    pub fn new(alloc: Global, tree: &'a Tree, names: &'a N) -> FlatTree<'a, N>
        requires { RulesBelow (length (N.names names.now)) tree.now }
        ensures tree { result.tree.now ≡ tree.now }
        ensures names { result.names.now ≡ names.now }
    {
        FlatTree { alloc, tree, names }
    }
}

impl<N: Names> Described for FlatTree<'_, N> {
    ghost writes = { λ rows. SendsValue (array (items_of (rows_data (N.names rows.names.now) 1 rows.tree.now))) };
}

impl<N: Names> Serialize for FlatTree<'_, N> {
    fn serialize<S: Serializer>(&self, out: &mut S) -> Result<(), S::Error> {
        serialize_rows(self.alloc, self.tree, self.names, out)
    }
}

fn serialize_rows<N: Names, S: Serializer>(
    alloc: Global,
    tree: &Tree,
    names: &N,
    out: &mut S,
) -> Result<(), S::Error>
    requires { RulesBelow (length (N.names names.now)) tree.now }
    ensures { OnOk result (SendsValue (array (items_of (rows_data (N.names names.now) 1 tree.now)))
        (S.written out.old) (S.written out.new)) }
{
    let rows = tree.rows();
    let mut ends = Vec::new(alloc);
    out.begin_seq(Some(rows.len()))?;
    for at in 0..rows.len() {
        close_ended(&mut ends, at);
        let row = rows[at];
        serialize_row(1 + ends.len(), row, names, out)?;
        push_end(&mut ends, at + row.size as usize, out)?;
    }
    out.end_seq()
}

pub(crate) fn serialize_row<N: Names, S: Serializer>(
    level: usize,
    node: TreeNode,
    names: &N,
    out: &mut S,
) -> Result<(), S::Error>
    requires { node.rule < length (N.names names.now) }
    ensures { OnOk result (SendsValue (row_data level (name_at (N.names names.now) node.rule)
        node.span.start node.span.end) (S.written out.old) (S.written out.new)) }
{
    out.begin_seq(Some(4))?;
    level.serialize(out)?;
    out.str(names.name(node.rule))?;
    node.span.start.serialize(out)?;
    node.span.end.serialize(out)?;
    out.end_seq()
}

// Pushes the end of an open node, and turns a failed allocation into an error of the serializer.
pub(crate) fn push_end<S: Serializer>(
    ends: &mut Vec<usize>,
    end: usize,
    out: &S,
) -> Result<(), S::Error>
    ensures { OnOk result (ends.new.items ≡ ends.old.items ++ end ∷ []) }
{
    match ends.push(end) {
        Ok(()) => Ok(()),
        Err(_) => Err(out.custom("out of memory")),
    }
}
