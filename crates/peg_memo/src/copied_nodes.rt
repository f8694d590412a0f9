//! Nodes in a list, and any memo.
ghost use Rattle.std.specs.Prelude.{◌≡◌, ◌≤◌, [], drop, length, map, Some, ⊤};
ghost use Rattle.peg_memo.specs.StoreState.{memo_state};
ghost use Rattle.peg_tree.specs.Rows.{row_of};

use crate::{Found, Keep, NodeStore, Recalled};
use peg_bytes::Span;
use peg_tree::TreeNode;
use std::alloc::{AllocError, Global};
use std::mem;

/// The nodes of a run in a list, and any memo. The nodes of a stored result are copied to the memo and from it.
#[derive(Drop)]
pub struct CopiedNodes<'a, K: Keep> {
    pub alloc: Global,
    pub nodes: Vec<TreeNode>,
    pub memo: &'a mut K,
}

impl<'a, K: Keep> CopiedNodes<'a, K> {
    /// Returns a store without nodes, over a memo.
    pub fn new(alloc: Global, memo: &'a mut K) -> CopiedNodes<'a, K>
        ensures nodes { map row_of result.nodes.items ≡ [] }
        ensures memo { result.memo.now ≡ memo.old }
        ensures same_memo { result.memo.ghost_name ≡ memo.entry.ghost_name }
    {
        CopiedNodes {
            alloc,
            nodes: Vec::new(alloc),
            memo,
        }
    }
}

impl<K: Keep> NodeStore for CopiedNodes<'_, K> {
    ghost state = { λ store. record {
      nodes = map row_of store.nodes.items;
      memo = memo_state (K.entries store.memo.now) (K.capacity store.memo.now) (K.allocation_failed store.memo.now);
    } };

    ghost cuts = { λ _ _. ⊤ };

    ghost out_of_memory = { λ store. K.out_of_memory store.memo.now };

    ghost lender = { λ store. Some store.memo.ghost_name };

    fn may_store(&self) -> bool {
        self.memo.may_store()
    }

    fn is_out_of_memory(&self) -> bool {
        self.memo.is_out_of_memory()
    }

    fn len(&self) -> usize {
        self.nodes.len()
    }

    fn push(&mut self, node: TreeNode) -> Result<(), AllocError> {
        self.nodes.push(node)?;
        Ok(())
    }

    fn truncate(&mut self, count: usize) {
        self.nodes.truncate(count);
    }

    fn touch(&mut self, rule: u32, position: u32) {
        self.memo.touch(rule, position);
    }

    fn recall(&mut self, rule: u32, position: u32) -> Result<Recalled, AllocError> {
        match self.memo.find(rule, position) {
            None => Ok(Recalled::Nothing),
            Some(Found::Failed) => Ok(Recalled::Failed),
            Some(Found::Done { end, nodes }) => {
                self.nodes.extend_from_slice(nodes)?;
                Ok(Recalled::Matched { end })
            }
        }
    }

    fn fail(&mut self, rule: u32, position: u32) -> bool {
        self.memo.keep(rule, position, Found::Failed)
    }

    fn finish(&mut self, at: usize, rule: u32, start: u32, end: u32) -> bool {
        self.nodes[at] = TreeNode {
            rule,
            span: Span::new(start, end),
            size: (self.nodes.len() - at) as u64,
        };
        let nodes = nodes_from(&self.nodes, at);
        self.memo.keep(rule, start, Found::Done { end, nodes })
    }

    fn finish_hidden(&mut self, at: usize, rule: u32, start: u32, end: u32) -> bool {
        let within = nodes_from(&self.nodes, at);
        self.memo
            .keep(rule, start, Found::Done { end, nodes: within })
    }

    fn take_nodes(&mut self) -> Result<Vec<TreeNode>, AllocError> {
        Ok(mem::replace(&mut self.nodes, Vec::new(self.alloc)))
    }
}

fn nodes_from(nodes: &[TreeNode], at: usize) -> &[TreeNode]
    requires { at ≤ length nodes.now }
    ensures { result.now ≡ drop at nodes.now }
{
    &nodes[at..]
}
