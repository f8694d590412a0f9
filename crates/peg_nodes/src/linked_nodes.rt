//! The nodes of a run, with links to stored results.
ghost use Rattle.std.specs.Prelude.{◌≡◌, ℕ, ◌+◌, ◌-◌, ◌^◌, ◌<◌, ◌≤◌, ◌∷◌, ◌++◌, [], drop, length, map, set, take};
ghost use Rattle.std.specs.Prelude.{if◌then◌else◌, is_ok, IfOk, IfSome, OnErr, OnOk};
ghost use Rattle.peg_tree.specs.Rows.{row_of};
ghost use Rattle.peg_nodes.specs.Invariant.{item_count};
ghost use Rattle.peg_nodes.specs.Places.{flat_place, places_before};
ghost use Rattle.peg_nodes.specs.Linked.{linked, nodes_of, link_nodes, IsLink, IsCut, IsItemAt};
ghost use Rattle.peg_nodes.specs.Linked.{KeepsCuts, KeepsCutsUpTo, KeepsLinks};
ghost use Rattle.peg_nodes.specs.declared.item.Item.TheVariants.{Node};
ghost use Rattle.peg_nodes.specs.OpenNodes.{closed_row, AreClosed, IsOpenAt};

use crate::expand::{expand_items, to_items};
use crate::item::{Item, Link, OpenNode};
use peg_bytes::Span;
use peg_tree::TreeNode;
use std::alloc::{AllocError, Global};
use std::marker::Model;

/// The largest number of nodes. A memory of 2^64 bytes holds fewer, but links could denote more.
const MAX_NODES: usize = 4_611_686_018_427_387_904;

/// A list of nodes in preorder, and a store of results. A node is open, with size 0, or closed. A `Link` denotes a
/// stored result, until `flatten` or `take_nodes`.
#[derive(Debug, Drop)]
pub struct LinkedNodes {
    alloc: Global,
    items: Vec<Item>,
    opened: Vec<OpenNode>,
    count: usize,
    stored: Vec<Item>,
}

impl Model for LinkedNodes {
    ghost use Rattle.peg_nodes.specs.Linked.{Linked, linked};
    ghost use Rattle.peg_nodes.specs.Invariant.{IsSound};

    ghost Value = { Linked };

    ghost view = { λ nodes. linked nodes.items.items nodes.stored.items };

    ghost invariant = { λ nodes. IsSound nodes.items.items nodes.stored.items nodes.opened.items nodes.count };
}

impl LinkedNodes {
    /// Returns an empty list with an empty store. Allocates nothing.
    pub fn new(alloc: Global) -> LinkedNodes
        ensures { result ≡ linked [] [] }
    {
        LinkedNodes {
            alloc,
            items: Vec::new(alloc),
            opened: Vec::new(alloc),
            count: 0,
            stored: Vec::new(alloc),
        }
    }

    /// Returns the number of nodes. Constant time.
    #[inline(always)]
    pub fn len(&self) -> usize
        ensures count { result ≡ length (nodes_of self.now) }
        ensures cut { IsCut self.now result }
        ensures limit { result < 2 ^ 63 }
    {
        self.count
    }

    /// Appends a node; one of size 0 is open. On an error nothing changes: an allocation failed, or there are 2^62
    /// nodes.
    #[inline(always)]
    pub fn push(&mut self, node: TreeNode) -> Result<(), AllocError>
        ensures ok { OnOk result (nodes_of self.new ≡ nodes_of self.old ++ row_of node ∷ []) }
        ensures err { OnErr result (self.new ≡ self.old) }
        ensures cuts { KeepsCuts self.old self.new }
        ensures links { KeepsLinks self.old self.new }
    {
        if self.count >= MAX_NODES {
            return Err(AllocError);
        }
        if node.size == 0 {
            return self.push_open(node);
        }
        self.items.push(Item::Node(node))?;
        self.count += 1;
        Ok(())
    }

    /// Removes the nodes from number `count` on, which must be a number that `len` returned. Amortized constant time.
    pub fn truncate(&mut self, count: usize)
        requires { IsCut self.old count }
        ensures nodes { nodes_of self.new ≡ take count (nodes_of self.old) }
        ensures cuts { KeepsCutsUpTo count self.old self.new }
        ensures links { KeepsLinks self.old self.new }
    {
        while self.count > count {
            self.pop_item();
        }
    }

    /// Closes the newest open node: sets its rule and span, and its size to the number of nodes from it on. Returns the
    /// index of its item. Constant time.
    pub fn close(&mut self, rule: u32, span: Span) -> usize
        requires { (at : ℕ) × IsOpenAt (nodes_of self.old) at }
        ensures nodes { (at : ℕ) → IsOpenAt (nodes_of self.old) at
            → nodes_of self.new ≡ set (nodes_of self.old) at (closed_row rule span (nodes_of self.old) at) }
        ensures place { (at : ℕ) → IsOpenAt (nodes_of self.old) at → IsItemAt self.new result at }
        ensures cuts { (at : ℕ) → IsOpenAt (nodes_of self.old) at → KeepsCutsUpTo at self.old self.new }
        ensures links { KeepsLinks self.old self.new }
    {
        match self.opened.pop() {
            Some(open) => {
                let size = (self.count - open.before) as u64;
                self.items[open.item] = Item::Node(TreeNode { rule, span, size });
                open.item
            }
            None => unreachable!(),
        }
    }

    /// Stores the nodes from an item on, which are all closed; `at` is the number of nodes before it. A link takes
    /// their place. On an error, a failed allocation, nothing changes. Linear in the number of items that are moved.
    pub fn store_from(&mut self, index: usize, at: usize) -> Result<Link, AllocError>
        requires place { IsItemAt self.old index at }
        requires are_closed { AreClosed (drop at (nodes_of self.old)) }
        ensures ok { IfOk result (λ link. IsLink self.new link
            × (link_nodes self.new link ≡ drop at (nodes_of self.old))) }
        ensures err { OnErr result (self.new ≡ self.old) }
        ensures nodes { nodes_of self.new ≡ nodes_of self.old }
        ensures cuts { KeepsCutsUpTo at self.old self.new }
        ensures links { KeepsLinks self.old self.new }
    {
        let link = Link {
            start: self.stored.len(),
            len: self.items.len() - index,
            count: (self.count - at) as u64,
        };
        store_items(&mut self.stored, &self.items, index)?;
        self.items[index] = Item::Stored(link);
        self.items.truncate(index + 1);
        Ok(link)
    }

    /// Appends the nodes of a stored result. On an error nothing changes: an allocation failed, or there would be more
    /// than 2^62 nodes. Amortized constant time.
    #[inline(always)]
    pub fn append(&mut self, link: Link) -> Result<(), AllocError>
        requires { IsLink self.old link }
        ensures ok { OnOk result (nodes_of self.new ≡ nodes_of self.old ++ link_nodes self.old link) }
        ensures err { OnErr result (self.new ≡ self.old) }
        ensures cuts { KeepsCuts self.old self.new }
        ensures links { KeepsLinks self.old self.new }
    {
        if link.count > (MAX_NODES - self.count) as u64 {
            return Err(AllocError);
        }
        if link.count == 0 {
            return Ok(());
        }
        self.items.push(Item::Stored(link))?;
        self.count += link.count as usize;
        Ok(())
    }

    /// Returns a link that denotes no nodes.
    pub fn empty_link(&self) -> Link
        ensures link { IsLink self.now result }
        ensures empty { link_nodes self.now result ≡ [] }
    {
        let _ = &self.stored;
        Link {
            start: 0,
            len: 0,
            count: 0,
        }
    }

    /// Returns the index of the item with `at` nodes before it, if it is one of the last `most` items. Linear in the
    /// number of items after it, and at most in `most`.
    pub fn item_at(&self, at: usize, most: usize) -> Option<usize>
        ensures { IfSome result (λ index. IsItemAt self.now index at) }
    {
        let mut index = self.items.len();
        let mut before = self.count;
        let least = index.saturating_sub(most);
        'items: while index > least && before > at {
            index -= 1;
            before -= nodes_in(self.items[index]);
            if before == at {
                return Some(index);
            }
        }
        None
    }

    /// Returns the number of items from `index` on: what `store_from` would move.
    pub fn items_from(&self, index: usize) -> usize
        ensures { result ≡ length self.now.items - index }
    {
        self.items.len().saturating_sub(index)
    }

    /// Returns the number of stored items.
    pub fn stored_len(&self) -> usize
        ensures { result ≡ length self.now.stored }
    {
        self.stored.len()
    }

    /// Returns the number of nodes of a stored result. Constant time.
    pub fn node_count(&self, link: Link) -> u64
        requires { IsLink self.now link }
        ensures { result ≡ length (link_nodes self.now link) }
    {
        let _ = &self.stored;
        link.count
    }

    /// Replaces each link by its nodes and empties the store, so links no longer denote results. On an error, a failed
    /// allocation, nothing changes. Linear in the number of nodes.
    pub fn flatten(&mut self) -> Result<(), AllocError>
        ensures nodes { nodes_of self.new ≡ nodes_of self.old }
        ensures cuts { KeepsCuts self.old self.new }
        ensures ok { OnOk result (self.new.stored ≡ []) }
        ensures err { OnErr result (self.new ≡ self.old) }
    {
        let flat = expand_items(self.alloc, &self.items, &self.stored, self.count)?;
        self.items = to_items(self.alloc, &flat)?;
        self.stored.clear();
        flatten_places(&mut self.opened);
        Ok(())
    }

    /// Returns the nodes, and empties the list and the store, so links no longer denote results. On an error, a failed
    /// allocation, nothing changes. Linear in the number of nodes.
    pub fn take_nodes(&mut self) -> Result<Vec<TreeNode>, AllocError>
        ensures ok { IfOk result (λ nodes. map row_of nodes.items ≡ nodes_of self.old) }
        ensures empty { OnOk result (self.new ≡ linked [] []) }
        ensures err { OnErr result (self.new ≡ self.old) }
    {
        let nodes = expand_items(self.alloc, &self.items, &self.stored, self.count)?;
        self.items.clear();
        self.opened.clear();
        self.count = 0;
        self.stored.clear();
        Ok(nodes)
    }
}

// What single methods do to the items.
impl LinkedNodes {
    // Appends an open node. On an error, a failed allocation, nothing changes.
    fn push_open(&mut self, node: TreeNode) -> Result<(), AllocError>
        requires open { node.size ≡ 0 }
        requires few { length (nodes_of self.old) < 2 ^ 62 }
        ensures ok { OnOk result (self.new ≡ linked (self.old.items ++ Node node ∷ []) self.old.stored) }
        ensures err { OnErr result (self.new ≡ self.old) }
    {
        self.items.push(Item::Node(node))?;
        let open = OpenNode {
            item: self.items.len() - 1,
            before: self.count,
        };
        if self.opened.push(open).is_err() {
            let _node = self.items.pop();
            return Err(AllocError);
        }
        self.count += 1;
        Ok(())
    }

    // Removes the last item, if there is one.
    fn pop_item(&mut self)
        ensures { self.new ≡ linked (take (length self.old.items - 1) self.old.items) self.old.stored }
    {
        match self.items.pop() {
            Some(Item::Node(node)) => {
                pop_place(&mut self.opened, node.size);
                self.count -= 1;
            }
            Some(Item::Stored(link)) => {
                self.count -= link.count as usize;
            }
            None => {}
        }
    }
}

// The number of nodes of an item.
fn nodes_in(item: Item) -> usize
    requires { item_count item < 2 ^ 64 }
    ensures { result ≡ item_count item }
{
    match item {
        Item::Node(_) => 1,
        Item::Stored(link) => link.count as usize,
    }
}

// Appends the items from `index` on to the store.
fn store_items(stored: &mut Vec<Item>, items: &[Item], index: usize) -> Result<(), AllocError>
    requires { index ≤ length items.now }
    ensures { stored.new.items
        ≡ (if is_ok result then stored.old.items ++ drop index items.now else stored.old.items) }
{
    stored.extend_from_slice(&items[index..])
}

// Removes the place of the last item, a node of this size, if it is open.
fn pop_place(opened: &mut Vec<OpenNode>, size: u64)
    ensures { opened.new.items ≡ places_before size opened.old.items }
{
    if size == 0 {
        let _open = opened.pop();
    }
}

// Sets the places of open nodes for a list without links, where each item is one node.
fn flatten_places(opened: &mut Vec<OpenNode>)
    ensures { opened.new.items ≡ map flat_place opened.old.items }
{
    for open in opened.iter_mut() {
        open.item = open.before;
    }
}
