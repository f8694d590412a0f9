//! The nesting depth of parentheses in trees.
ghost use Rattle.std.specs.Prelude.{◌≡◌, ◌≤◌, ◌↔◌, IsTrue};
ghost use Rattle.peg_metagrammar.specs.Nesting.{nesting, has_open};
ghost use Rattle.peg_tree.specs.Branches.{trees_in};

use peg_metagrammar::rule_numbers::{OPEN, PRIMARY};
use peg_tree::Forest;

/// Returns whether at most `left` parentheses of the trees are open at once. The recursion is as deep as the trees, a
/// few levels for each parenthesis, and stops at the first parenthesis too many. Takes time linear in the trees.
#[cycle(nests)]
pub(crate) fn nests_within(trees: &Forest<'_>, left: usize) -> bool
    ensures { IsTrue result ↔ (nesting (trees_in trees.now) ≤ left) }
{
    let mut rest = *trees;
    'trees: while !rest.is_empty() {
        let tree = rest.first();
        let opens = tree.rule == PRIMARY && has_open(&tree.children);
        if opens && left == 0 {
            return false;
        }
        let inside = if opens { left - 1 } else { left };
        if !nests_within(&tree.children, inside) {
            return false;
        }
        rest = tree.rest;
    }
    true
}

// Whether one of the trees is a match of OPEN.
fn has_open(trees: &Forest<'_>) -> bool
    ensures { result ≡ has_open (trees_in trees.now) }
{
    let mut rest = *trees;
    'trees: while !rest.is_empty() {
        let tree = rest.first();
        if tree.rule == OPEN {
            return true;
        }
        rest = tree.rest;
    }
    false
}
