//! Serializing a tree as nested objects with their text.
ghost use Rattle.std.specs.Prelude.{◌≡◌, ◌+◌, ◌<◌, OnOk, codes, length};
ghost use Rattle.serde_json.specs.Data.{no_members, member, object, string};
ghost use Rattle.serde_json.specs.Events.{SendsValue};
ghost use Rattle.peg_tree.specs.Events.{SendsNestedText};
ghost use Rattle.peg_tree.specs.Names.{name_at};
ghost use Rattle.peg_tree.specs.Nodes.{RulesBelow};
ghost use Rattle.peg_tree.specs.Sending.{RulesBelow-prop};
ghost use Rattle.peg_tree.specs.TextJson.{bytes_between, leaf_data, leaf_members};
ghost use Rattle.peg_tree.specs.TextSending.{SendsLeafMembers};

use crate::member::serialize_member;
use crate::nested_tree::{begin_node, end_node, pop_ended};
use crate::node_text::bytes_between;
use crate::{Names, Tree, TreeNode};
use serde::{Described, Serialize, Serializer};
use std::alloc::Global;

/// A tree that `serde` serializes as nested objects, `{"children":[..],"end":n,"rule":"..","start":n}` each, with the
/// children in order. A node without children has its text as the member `text`. If that is not UTF-8, it has its
/// hexadecimal digits as the member `bytes` instead. Serialization takes one pass, linear in the nodes and in the text
/// of those without children, and stores the open nodes. If an allocation fails, the serializer returns a custom error.
///
/// # Example
///
/// ```
/// let nested = serde_json::to_string(alloc, &NestedTextTree::new(alloc, &tree, grammar, text))?;
/// ```
#[derive(Drop)]
pub struct NestedTextTree<'a, N: Names> {
    alloc: Global,
    pub tree: &'a Tree,
    pub names: &'a N,
    pub text: &'a [u8],
    ghost below: { RulesBelow (length (N.names names.now)) tree.now } by { RulesBelow-prop (length
        (N.names names.now)) tree.now },
}

impl<'a, N: Names> NestedTextTree<'a, N> {
    /// Returns a serializable view of `tree` over `text`, with the names of its rules.
    pub fn new(alloc: Global, tree: &'a Tree, names: &'a N, text: &'a [u8]) -> NestedTextTree<'a, N>
        requires { RulesBelow (length (N.names names.now)) tree.now }
        ensures tree { result.tree.now ≡ tree.now }
        ensures names { result.names.now ≡ names.now }
        ensures text { result.text.now ≡ text.now }
    {
        NestedTextTree {
            alloc,
            tree,
            names,
            text,
        }
    }
}

impl<N: Names> Described for NestedTextTree<'_, N> {
    ghost writes = { λ nested. SendsNestedText (N.names nested.names.now) nested.text.now nested.tree.now };
}

impl<N: Names> Serialize for NestedTextTree<'_, N> {
    fn serialize<S: Serializer>(&self, out: &mut S) -> Result<(), S::Error> {
        serialize_nested_with_text(self.alloc, self.tree, self.names, self.text, out)
    }
}

// Serializes the tree in one pass, with a stack of open nodes instead of recursion. A node without children is never
// open.
fn serialize_nested_with_text<N: Names, S: Serializer>(
    alloc: Global,
    tree: &Tree,
    names: &N,
    text: &[u8],
    out: &mut S,
) -> Result<(), S::Error>
    requires { RulesBelow (length (N.names names.now)) tree.now }
    ensures { OnOk result (SendsNestedText (N.names names.now) text.now tree.now
        (S.written out.old) (S.written out.new)) }
{
    let rows = tree.rows();
    let mut stack = Vec::new(alloc);
    let mut at = 0;
    'nodes: loop {
        match pop_ended(&mut stack, at) {
            Some(ended) => end_node(ended.node, names, out)?,
            None if at < rows.len() => {
                let node = rows[at];
                if node.size == 1 {
                    serialize_leaf(alloc, node, names, text, out)?;
                } else {
                    begin_node(rows, at, &mut stack, out)?;
                }
                at += 1;
            }
            None => return Ok(()),
        }
    }
}

// Serializes a node without children.
fn serialize_leaf<N: Names, S: Serializer>(
    alloc: Global,
    node: TreeNode,
    names: &N,
    text: &[u8],
    out: &mut S,
) -> Result<(), S::Error>
    requires { node.rule < length (N.names names.now) }
    ensures { OnOk result (SendsValue (leaf_data (name_at (N.names names.now) node.rule) node.span.start node.span.end
        (bytes_between text.now node.span.start node.span.end)) (S.written out.old) (S.written out.new)) }
{
    let bytes = bytes_between(text, node.span);
    match str::from_utf8(bytes) {
        Ok(text) => serialize_text_leaf(node, text, names, out),
        Err(_) => match hex::encode(alloc, bytes) {
            Ok(digits) => serialize_bytes_leaf(node, digits.as_str(), names, out),
            Err(_) => Err(out.custom("out of memory")),
        },
    }
}

fn serialize_text_leaf<N: Names, S: Serializer>(
    node: TreeNode,
    text: &str,
    names: &N,
    out: &mut S,
) -> Result<(), S::Error>
    requires { node.rule < length (N.names names.now) }
    ensures { OnOk result (SendsValue (object (leaf_members (name_at (N.names names.now) node.rule)
        node.span.start node.span.end (member (codes "text") (string text.now) no_members)))
        (S.written out.old) (S.written out.new)) }
{
    out.begin_map(Some(5))?;
    serialize_leaf_members(node, names, out)?;
    serialize_member("text", &text, out)?;
    out.end_map()
}

fn serialize_bytes_leaf<N: Names, S: Serializer>(
    node: TreeNode,
    digits: &str,
    names: &N,
    out: &mut S,
) -> Result<(), S::Error>
    requires { node.rule < length (N.names names.now) }
    ensures { OnOk result (SendsValue (object (member (codes "bytes") (string digits.now)
        (leaf_members (name_at (N.names names.now) node.rule) node.span.start node.span.end no_members)))
        (S.written out.old) (S.written out.new)) }
{
    out.begin_map(Some(5))?;
    serialize_member("bytes", &digits, out)?;
    serialize_leaf_members(node, names, out)?;
    out.end_map()
}

// Serializes the members that every node without children has.
fn serialize_leaf_members<N: Names, S: Serializer>(
    node: TreeNode,
    names: &N,
    out: &mut S,
) -> Result<(), S::Error>
    requires { node.rule < length (N.names names.now) }
    ensures { OnOk result (SendsLeafMembers (name_at (N.names names.now) node.rule) node.span.start node.span.end
        (S.written out.old) (S.written out.new)) }
{
    out.key("children")?;
    out.begin_seq(Some(0))?;
    out.end_seq()?;
    serialize_member("end", &node.span.end, out)?;
    serialize_member("rule", &names.name(node.rule), out)?;
    serialize_member("start", &node.span.start, out)
}
