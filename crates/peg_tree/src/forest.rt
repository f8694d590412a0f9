//! Forests: adjacent trees, traversed tree by tree.
ghost use Rattle.std.specs.Prelude.{map};
ghost use Rattle.peg_tree.specs.Rows.{row_of};
ghost use Rattle.peg_tree.specs.TreesOfRows.{IsForest};

use crate::TreeNode;
use peg_bytes::Span;

/// A forest: adjacent sibling trees, from one of them to the last.
#[derive(Clone, Copy, Debug)]
pub struct Forest<'a> {
    rows: &'a [TreeNode],
    ghost whole: { IsForest (map row_of rows.now) },
}

/// A tree of a forest: its rule number, the span of the text that it matched, its children, and the trees after it in
/// the forest.
#[derive(Clone, Copy, Debug)]
pub struct Branch<'a> {
    pub rule: u32,
    pub span: Span,
    pub children: Forest<'a>,
    pub rest: Forest<'a>,
}

impl<'a> Forest<'a> {
    ghost use Rattle.std.specs.Prelude.{◌≡◌, ◌≢◌, ◌↔◌, IsTrue};
    ghost use Rattle.peg_tree.specs.Branches.{trees_in, trees_from_branch};
    ghost use Rattle.peg_tree.specs.Trees.{NoTrees};
    ghost use Rattle.peg_tree.specs.TreesOfRows.{trees_of};

    pub(crate) fn of_rows(rows: &'a [TreeNode]) -> Forest<'a>
        requires { IsForest (map row_of rows.now) }
        ensures { trees_in result ≡ trees_of (map row_of rows.now) }
    {
        Forest { rows }
    }

    /// Returns whether the forest has no tree.
    pub fn is_empty(&self) -> bool
        ensures { IsTrue result ↔ (trees_in self.now ≡ NoTrees) }
    {
        self.rows.is_empty()
    }

    /// Returns the first tree. Constant time.
    pub fn first(&self) -> Branch<'a>
        requires { trees_in self.now ≢ NoTrees }
        ensures { trees_in self.now ≡ trees_from_branch result }
    {
        let root = self.rows[0];
        let end = root.size as usize;
        let children = Forest {
            rows: &self.rows[1..end],
        };
        let rest = Forest {
            rows: &self.rows[end..],
        };
        Branch {
            rule: root.rule,
            span: root.span,
            children,
            rest,
        }
    }
}
