//! The number of levels of a tree.
ghost use Rattle.std.specs.Prelude.{◌≡◌, ◌+◌, ◌*◌, ◌<◌, ◌≤◌, map, max};
ghost use Rattle.peg_tree.specs.Parts.{IsPart, part_length, level_in};
ghost use Rattle.peg_tree.specs.Rows.{row_of, IsOneTree};
ghost use Rattle.peg_tree.specs.Trees.{levels};
ghost use Rattle.peg_tree.specs.TreesOfRows.{trees_of};

use crate::TreeNode;
use crate::part::{Part, PartStack};

// Computes the greatest level. Each step splits a part of the node list into the children of its first tree and the
// trees after it. The smaller part is pushed last, so 65 entries are enough for any tree.
pub(crate) fn depth_in(rows: &[TreeNode]) -> usize
    requires { IsOneTree (map row_of rows.now) }
    ensures { result ≡ levels (trees_of (map row_of rows.now)) }
{
    let mut deepest = 0;
    let mut waiting = PartStack::new(Part {
        from: 0,
        to: rows.len(),
        level: 1,
    });
    while let Some(part) = waiting.pop() {
        if part.from < part.to {
            deepest = deepest.max(part.level);
            let halves = split_root(rows, part);
            waiting.push(halves.large);
            waiting.push(halves.small);
        }
    }
    deepest
}

// The two parts that remain when the first node of a part is removed.
#[derive(Clone, Copy)]
struct Split {
    large: Part,
    small: Part,
}

// Splits a part into the children of its first tree and the trees after it; `small` has no more nodes than `large`.
fn split_root(rows: &[TreeNode], part: Part) -> Split
    requires part { IsPart (map row_of rows.now) part }
    requires some { part.from < part.to }
    ensures large { IsPart (map row_of rows.now) result.large }
    ensures small { IsPart (map row_of rows.now) result.small }
    ensures sizes { part_length result.large + part_length result.small + 1 ≡ part_length part }
    ensures few { part_length result.small ≤ part_length result.large }
    ensures level { level_in (map row_of rows.now) part
        ≡ max part.level (max (level_in (map row_of rows.now) result.large)
        (level_in (map row_of rows.now) result.small)) }
{
    let root = rows[part.from];
    let middle = part.from + root.size as usize;
    let children = Part {
        from: part.from + 1,
        to: middle,
        level: part.level + 1,
    };
    let rest = Part {
        from: middle,
        to: part.to,
        level: part.level,
    };
    if middle - part.from <= part.to - middle {
        Split {
            large: rest,
            small: children,
        }
    } else {
        Split {
            large: children,
            small: rest,
        }
    }
}
