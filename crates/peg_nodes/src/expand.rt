//! The nodes that items denote.
ghost use Rattle.std.specs.Prelude.{◌≡◌, ◌+◌, ◌<◌, ◌≤◌, ◌++◌, [], length, map, IfOk, OnOk};
ghost use Rattle.std.specs.List.{All};
ghost use Rattle.peg_tree.specs.Rows.{row_of};
ghost use Rattle.peg_nodes.specs.Expansion.{images_of, expand, range_rows};
ghost use Rattle.peg_nodes.specs.Invariant.{IsLinkItem, RefersBack};
ghost use Rattle.peg_nodes.specs.Ranges.{with_range};
ghost use Rattle.peg_nodes.specs.declared.item.Item.TheVariants.{Node};

use crate::item::{Item, Link};
use peg_tree::TreeNode;
use std::alloc::{AllocError, Global};

// A range of the store that waits to be expanded; it isn't empty.
#[derive(Clone, Copy)]
pub struct Waiting {
    pub next: usize,
    pub end: usize,
}

// Returns the nodes that items denote, `count` of them. The only error is a failed allocation.
pub(crate) fn expand_items(
    alloc: Global,
    items: &[Item],
    stored: &[Item],
    count: usize,
) -> Result<Vec<TreeNode>, AllocError>
    requires links { All (IsLinkItem stored.now) items.now }
    requires older { RefersBack 0 stored.now }
    ensures { IfOk result (λ nodes. map row_of nodes.items ≡ expand (images_of stored.now) items.now) }
{
    let mut nodes = Vec::with_capacity(alloc, count)?;
    let mut waiting = Vec::new(alloc);
    for item in items {
        match *item {
            Item::Node(node) => nodes.push(node)?,
            Item::Stored(link) => expand_link(stored, link, &mut waiting, &mut nodes)?,
        }
    }
    Ok(nodes)
}

// Appends the nodes of a link. The stack of ranges is on the heap, since links may be nested millions deep. The rest of
// a range is pushed only if it isn't empty, so a link at the end of a range takes no space on the stack.
fn expand_link(
    stored: &[Item],
    link: Link,
    waiting: &mut Vec<Waiting>,
    nodes: &mut Vec<TreeNode>,
) -> Result<(), AllocError>
    requires within { link.start + link.len ≤ length stored.now }
    requires older { RefersBack 0 stored.now }
    requires empty { waiting.old.items ≡ [] }
    ensures nodes { OnOk result (map row_of nodes.new.items
        ≡ map row_of nodes.old.items ++ range_rows (images_of stored.now) link) }
    ensures empty { OnOk result (waiting.new.items ≡ []) }
{
    push_range(waiting, link.start, link.start + link.len)?;
    while let Some(range) = waiting.pop() {
        let item = stored[range.next];
        push_range(waiting, range.next + 1, range.end)?;
        match item {
            Item::Node(node) => nodes.push(node)?,
            Item::Stored(link) => push_range(waiting, link.start, link.start + link.len)?,
        }
    }
    Ok(())
}

// Pushes a range, unless it is empty.
fn push_range(waiting: &mut Vec<Waiting>, next: usize, end: usize) -> Result<(), AllocError>
    ensures { OnOk result (waiting.new.items ≡ with_range waiting.old.items next end) }
{
    if next < end {
        waiting.push(Waiting { next, end })?;
    }
    Ok(())
}

// Returns the nodes as items. The only error is a failed allocation.
pub(crate) fn to_items(alloc: Global, nodes: &[TreeNode]) -> Result<Vec<Item>, AllocError>
    ensures { IfOk result (λ items. items.items ≡ map Node nodes.now) }
{
    let mut items = Vec::with_capacity(alloc, nodes.len())?;
    for node in nodes {
        items.push(Item::Node(*node))?;
    }
    Ok(items)
}
