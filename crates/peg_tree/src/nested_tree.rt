//! Serializing a tree as nested objects.
ghost use Rattle.std.specs.Prelude.{◌≡◌, ◌+◌, ◌<◌, ◌≤◌, ◌∷◌, ◌++◌, [], IfNone, IfSome, OnOk, length, map, reverse};
ghost use Rattle.peg_tree.specs.Names.{name_at};
ghost use Rattle.peg_tree.specs.Nodes.{RulesBelow, root_count, node_at};
ghost use Rattle.peg_tree.specs.Rows.{IsOneTree, row_of};
ghost use Rattle.peg_tree.specs.Events.{SendsNested};
ghost use Rattle.peg_tree.specs.Sending.{BeginsNode, EndsNode, IsOpenPast, Opens, RulesBelow-prop};
ghost use Rattle.peg_tree.specs.TreesOfRows.{trees_of};

use crate::member::serialize_member;
use crate::rows::count_in;
use crate::{Names, Tree, TreeNode};
use serde::{Described, Serialize, Serializer};
use std::alloc::Global;

/// A tree that `serde` serializes as nested objects, `{"children":[..],"end":n,"rule":"..","start":n}` each, with the
/// children in order. Serialization takes one pass and stores the open nodes. If an allocation fails, the serializer
/// returns a custom error.
#[derive(Drop)]
pub struct NestedTree<'a, N: Names> {
    alloc: Global,
    pub tree: &'a Tree,
    pub names: &'a N,
    ghost below: { RulesBelow (length (N.names names.now)) tree.now } by { RulesBelow-prop (length
        (N.names names.now)) tree.now },
}

impl<'a, N: Names> NestedTree<'a, N> {
    /// Returns a serializable view of `tree`, with the names of its rules.
    pub fn new(alloc: Global, tree: &'a Tree, names: &'a N) -> NestedTree<'a, N>
        requires { RulesBelow (length (N.names names.now)) tree.now }
        ensures tree { result.tree.now ≡ tree.now }
        ensures names { result.names.now ≡ names.now }
    {
        NestedTree { alloc, tree, names }
    }
}

impl<N: Names> Described for NestedTree<'_, N> {
    ghost writes = { λ nested. SendsNested (N.names nested.names.now) nested.tree.now };
}

impl<N: Names> Serialize for NestedTree<'_, N> {
    fn serialize<S: Serializer>(&self, out: &mut S) -> Result<(), S::Error> {
        serialize_nested(self.alloc, self.tree, self.names, out)
    }
}

// An open node: one that has been begun but not ended. `end` is the number of the first node after its subtree.
#[derive(Clone, Copy)]
pub(crate) struct Open {
    pub node: TreeNode,
    pub end: usize,
}

// Serializes the tree in one pass, with a stack of open nodes instead of recursion.
fn serialize_nested<N: Names, S: Serializer>(
    alloc: Global,
    tree: &Tree,
    names: &N,
    out: &mut S,
) -> Result<(), S::Error>
    requires { RulesBelow (length (N.names names.now)) tree.now }
    ensures { OnOk result (SendsNested (N.names names.now) tree.now (S.written out.old) (S.written out.new)) }
{
    let rows = tree.rows();
    let mut stack = Vec::new(alloc);
    let mut at = 0;
    'nodes: loop {
        match pop_ended(&mut stack, at) {
            Some(ended) => end_node(ended.node, names, out)?,
            None if at < rows.len() => {
                begin_node(rows, at, &mut stack, out)?;
                at += 1;
            }
            None => return Ok(()),
        }
    }
}

// Pops the innermost open node if its subtree ends at or before node number `at`.
pub(crate) fn pop_ended(stack: &mut Vec<Open>, at: usize) -> Option<Open>
    ensures some { IfSome result (λ top. reverse stack.old.items ≡ top ∷ reverse stack.new.items) }
    ensures ended { IfSome result (λ top. top.end ≤ at) }
    ensures shorter { IfSome result (λ top. length stack.new.items < length stack.old.items) }
    ensures same { IfNone result (stack.new.items ≡ stack.old.items) }
    ensures past { IfNone result (IsOpenPast at (reverse stack.old.items)) }
{
    match stack.last() {
        Some(top) if top.end <= at => stack.pop(),
        _ => None,
    }
}

// Begins the object of node number `at` and pushes the node as open.
pub(crate) fn begin_node<S: Serializer>(
    rows: &[TreeNode],
    at: usize,
    stack: &mut Vec<Open>,
    out: &mut S,
) -> Result<(), S::Error>
    requires tree { IsOneTree (map row_of rows.now) }
    requires within { at < length rows.now }
    ensures sent { OnOk result (BeginsNode (root_count (node_at (trees_of (map row_of rows.now)) at).children)
        (S.written out.old) (S.written out.new)) }
    ensures open { OnOk result (Opens rows.now at stack.old.items stack.new.items) }
{
    out.begin_map(Some(4))?;
    out.key("children")?;
    out.begin_seq(Some(count_in(rows, at)))?;
    let node = rows[at];
    let end = at + node.size as usize;
    match stack.push(Open { node, end }) {
        Ok(()) => Ok(()),
        Err(_) => Err(out.custom("out of memory")),
    }
}

// Ends the object of a node, after all of its children.
pub(crate) fn end_node<N: Names, S: Serializer>(
    node: TreeNode,
    names: &N,
    out: &mut S,
) -> Result<(), S::Error>
    requires { node.rule < length (N.names names.now) }
    ensures { OnOk result (EndsNode (name_at (N.names names.now) node.rule) node.span.start node.span.end
        (S.written out.old) (S.written out.new)) }
{
    out.end_seq()?;
    serialize_member("end", &node.span.end, out)?;
    serialize_member("rule", &names.name(node.rule), out)?;
    serialize_member("start", &node.span.start, out)?;
    out.end_map()
}
