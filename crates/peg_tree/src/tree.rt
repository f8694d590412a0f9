//! Parse trees. Contracts see the tree; the code stores its node list.
ghost use Rattle.std.specs.Prelude.{◌≡◌, ◌+◌, ◌<◌, ◌↔◌, map, IfOk, IsTrue};
ghost use Rattle.peg_tree.specs.Rows.{row_of, rows_of, IsOneTree};
ghost use Rattle.peg_tree.specs.Selected.{has_rule, selected};
ghost use Rattle.peg_tree.specs.Trees.{nodes, levels};
ghost use Rattle.peg_tree.specs.TreesOfRows.{trees_of};
ghost use Rattle.peg_tree.specs.Branches.{trees_in};
ghost use Rattle.peg_tree.specs.Nodes.{node_at, root_count, child_at, trees_from, first_root, RulesBelow};

use crate::depth::depth_in;
use crate::forest::Forest;
use crate::rows::{child_in, count_in, fit_in, node_in};
use crate::select::select_in;
use crate::{RuleSet, TreeNode};
use peg_bytes::Span;
use std::alloc::{AllocError, Global};
use std::marker::Model;

/// A parse tree. Nodes are numbered in preorder from 0, the root.
#[derive(Debug, Drop)]
pub struct Tree {
    rows: Vec<TreeNode>,
}

impl Model for Tree {
    ghost use Rattle.std.specs.Prelude.{map};
    ghost use Rattle.peg_tree.specs.Rows.{row_of, IsOneTree};
    ghost use Rattle.peg_tree.specs.Trees.{Trees};
    ghost use Rattle.peg_tree.specs.TreesCode.{trees_code};
    ghost use Rattle.peg_tree.specs.TreesOfRows.{trees_of};

    ghost Value = { Trees };

    ghost coded = { trees_code };

    ghost view = { λ tree. trees_of (map row_of tree.rows.items) };

    ghost invariant = { λ tree. IsOneTree (map row_of tree.rows.items) };
}

impl Tree {
    /// Creates the tree with the given node list, which must be one tree; see `one_tree`.
    pub fn from_rows(rows: Vec<TreeNode>) -> Tree
        requires { IsOneTree (map row_of rows.items) }
        ensures trees { result ≡ trees_of (map row_of rows.items) }
        ensures rows { rows_of result ≡ map row_of rows.items }
    {
        Tree { rows }
    }

    /// Returns the number of nodes, which is at least 1.
    pub fn len(&self) -> usize
        ensures count { result ≡ nodes self.now }
        ensures some { 0 < result }
    {
        self.rows.len()
    }

    /// Returns the number of the root, 0.
    pub fn root(&self) -> usize
        ensures number { result ≡ 0 }
        ensures within { result < nodes self.now }
    {
        let _ = &self.rows;
        0
    }

    /// Returns the rule number of a node.
    pub fn rule(&self, node: usize) -> u32
        requires { node < nodes self.now }
        ensures { result ≡ (node_at self.now node).rule }
    {
        node_in(&self.rows, node).rule
    }

    /// Returns the span of the text that a node matched.
    pub fn span(&self, node: usize) -> Span
        requires { node < nodes self.now }
        ensures start { result.start ≡ (node_at self.now node).start }
        ensures end { result.end ≡ (node_at self.now node).end }
    {
        node_in(&self.rows, node).span
    }

    /// Returns the number of children of a node. Linear in that number.
    pub fn child_count(&self, node: usize) -> usize
        requires { node < nodes self.now }
        ensures { result ≡ root_count (node_at self.now node).children }
    {
        count_in(&self.rows, node)
    }

    /// Returns the number of the child at index `nth` among the children of `node`. Linear in `nth`.
    pub fn child(&self, node: usize, nth: usize) -> usize
        requires node { node < nodes self.now }
        requires nth { nth < root_count (node_at self.now node).children }
        ensures number { result ≡ child_at self.now node nth }
        ensures within { result < nodes self.now }
        ensures node { node_at self.now result ≡ first_root (trees_from nth (node_at self.now node).children) }
    {
        child_in(&self.rows, node, nth)
    }

    /// Returns the number of levels; the root has level 1. Linear in the number of nodes.
    pub fn depth(&self) -> usize
        ensures levels { result ≡ levels self.now }
        ensures some { 0 < result }
    {
        depth_in(&self.rows)
    }

    /// Returns whether the rule number of every node is below `rules`. Linear in the number of nodes.
    pub fn fits(&self, rules: u32) -> bool
        ensures { IsTrue result ↔ RulesBelow rules self.now }
    {
        fit_in(&self.rows, rules)
    }

    /// Returns the tree as a forest of one tree, for traversal.
    pub fn forest(&self) -> Forest<'_>
        ensures { trees_in result ≡ self.now }
    {
        Forest::of_rows(&self.rows)
    }

    /// Returns the nodes, in preorder. Constant time.
    pub fn nodes(&self) -> &[TreeNode]
        ensures { map row_of result.now ≡ rows_of self.now }
    {
        self.rows.as_slice()
    }

    /// Returns the tree without the nodes of rules that are not shown. The root stays. The children of an omitted node
    /// take its place, in order. The only error is a failed allocation. Linear in the number of nodes.
    ///
    /// # Example
    ///
    /// ```
    /// let mut shown = RuleSet::none(alloc, grammar.rules())?;
    /// shown.insert(2);
    /// let selected = tree.select(alloc, &shown)?;
    /// ```
    pub fn select(&self, alloc: Global, shown: &RuleSet) -> Result<Tree, AllocError>
        ensures { IfOk result (λ tree. tree ≡ selected (has_rule shown.now) self.now) }
    {
        let rows = select_in(alloc, self.rows(), shown)?;
        Ok(Tree::from_rows(rows))
    }

    pub(crate) fn rows(&self) -> &[TreeNode]
        ensures tree { IsOneTree (map row_of result.now) }
        ensures same { trees_of (map row_of result.now) ≡ self.now }
    {
        self.rows.as_slice()
    }
}
