//! A node store whose memo stores only results that are worth their cost.
ghost use Rattle.std.specs.Prelude.{◌≡◌, ◌<◌, ◌≤◌, ◌||◌, [], ℕ, drop, length, IfOk, IsTrue, None};
ghost use Rattle.std.proofs.Props.{props};
ghost use Rattle.std.specs.FinMap as map;
ghost use Rattle.peg_memo.specs.StoredResult.{StoredFailure, StoredMatch};
ghost use Rattle.peg_memo.specs.StoreState.{closed_at, IsOfferedAt, IsTouched};
ghost use Rattle.peg_nodes.specs.Linked.{nodes_of, IsCut, IsItemAt};
ghost use Rattle.peg_nodes.specs.OpenNodes.{AreClosed, IsOpenAt};
ghost use Rattle.peg_memo_policy.specs.LinkedResults.{stored_result, AreLinked, IsLinked};

use crate::RerunCosts;
use crate::link_table::LinkTable;
use crate::linked_result::LinkedResult;
use crate::policy::{Decision, Policy};
use crate::room::Room;
use crate::size::Size;
use peg_bytes::Span;
use peg_memo::{NodeStore, Recalled};
use peg_nodes::LinkedNodes;
use peg_tree::TreeNode;
use std::alloc::{AllocError, Global};

// The items of a match without a node are counted up to this number.
const MAX_COUNTED_ITEMS: usize = 64;

/// The nodes of a run over one text, with links in the place of stored results, and a memo of bounded size. The memo
/// stores the results that are worth their cost. It relies on the order of calls that a machine makes: `touch`, then
/// `recall`, and then `finish` or `fail` at the end of the body if nothing was found. In any other order it still
/// stores only results that it was given.
///
/// A hit takes constant time. To store a result takes time for its items that are not stored yet, so each node moves
/// once.
///
/// What evicted entries leave in the store can't be freed alone, so a store with too many items is emptied as a whole.
///
/// If an allocation for a result fails, the least recently used entries are evicted until it succeeds. The memo is out
/// of memory if no entry is left and it still fails, or if the start of a body can't be recorded.
#[derive(Drop)]
pub struct SelectiveStore<'a> {
    nodes: LinkedNodes,
    results: LinkTable,
    policy: Policy<'a>,
    // How many items may be stored.
    room: Room,
    // Whether the call that was touched last has an entry.
    hit: bool,
    // Whether a result could not be stored though no other entry was left.
    out_of_memory: bool,
    // Whether an allocation for a result has failed.
    allocation_failed: bool,
    ghost linked: { AreLinked nodes results } by { Prim.hlevel props },
}

impl<'a> SelectiveStore<'a> {
    ghost use Rattle.peg_memo_policy.specs.SelectiveStore.{state_by};

    /// Returns a store without nodes and entries, for a run over a text of the program with these costs. The only error
    /// is a failed allocation.
    pub fn new(
        alloc: Global,
        capacity: u32,
        costs: &'a RerunCosts,
        text: &'a [u8],
    ) -> Result<SelectiveStore<'a>, AllocError>
        requires { 1 ≤ capacity }
        ensures nodes { IfOk result (λ store. (state_by store).nodes ≡ []) }
        ensures memo { IfOk result (λ store. map.len (state_by store).memo.entries ≡ 0) }
    {
        Ok(SelectiveStore {
            nodes: LinkedNodes::new(alloc),
            results: LinkTable::new(alloc, capacity)?,
            policy: Policy::new(alloc, capacity, costs, text)?,
            room: Room::new(),
            hit: false,
            out_of_memory: false,
            allocation_failed: false,
        })
    }
}

impl SelectiveStore<'_> {
    ghost use Rattle.peg_memo_policy.specs.SelectiveStore.{state_by};

    // Returns whether a rule at a position has an entry, and marks the entry as used.
    fn lookup_and_touch(&mut self, rule: u32, position: u32) -> bool
        ensures nodes { self.new.nodes ≡ self.old.nodes }
        ensures memo { IsTouched (state_by self.old).memo (state_by self.new).memo }
    {
        let size = match self.results.find(rule, position) {
            Some(LinkedResult::Failed) => Size::of_failure(),
            Some(LinkedResult::Matched { end, link }) => {
                Size::of_match(1, self.nodes.node_count(link), position, end)
            }
            None => return false,
        };
        self.results.touch(rule, position);
        self.policy.note_found(rule, position, size);
        true
    }

    // Decides whether the result of a call with this size is stored, and records it if not.
    fn is_wanted(&mut self, rule: u32, position: u32, size: Size) -> bool
        ensures nodes { self.new.nodes ≡ self.old.nodes }
        ensures results { self.new.results ≡ self.old.results }
        ensures allocation_failed { self.new.allocation_failed ≡ self.old.allocation_failed }
    {
        let Some(work) = self.policy.end_call(rule) else {
            return false;
        };
        match self.policy.decide(rule, position, size, work) {
            Decision::Decline => false,
            Decision::Store => true,
            Decision::Skip => {
                self.policy.note_skipped(rule);
                false
            }
            Decision::Sample => {
                self.policy.note_sampled(rule);
                true
            }
        }
    }

    // Empties the store: the links among the nodes are replaced by their nodes, and the memo forgets its entries. If an
    // allocation fails, the memo is out of memory.
    #[inline(never)]
    fn make_room(&mut self)
        ensures nodes { nodes_of self.new.nodes ≡ nodes_of self.old.nodes }
        ensures memo { IsTouched (state_by self.old).memo (state_by self.new).memo }
        ensures cuts { (count : ℕ) → IsCut self.old.nodes count → IsCut self.new.nodes count }
    {
        self.room.note_emptied();
        self.results.clear();
        if self.nodes.flatten().is_err() {
            self.out_of_memory = true;
        }
    }

    // Empties the store if it has too many items, when a match ends at `end`.
    fn make_room_if_full(&mut self, end: u32)
        ensures nodes { nodes_of self.new.nodes ≡ nodes_of self.old.nodes }
        ensures memo { IsTouched (state_by self.old).memo (state_by self.new).memo }
        ensures cuts { (count : ℕ) → IsCut self.old.nodes count → IsCut self.new.nodes count }
    {
        self.room.note_end(end);
        if self
            .room
            .is_exceeded(self.nodes.stored_len(), self.nodes.len())
        {
            self.make_room();
        }
    }

    // Closes the newest open node, which is at `at`, and stores the result of its call if it is wanted. Returns whether
    // it is stored now.
    fn close(&mut self, at: usize, rule: u32, start: u32, end: u32) -> bool
        requires open { IsOpenAt (nodes_of self.old.nodes) at }
        requires order { start ≤ end }
        ensures nodes { nodes_of self.new.nodes ≡ closed_at at (nodes_of self.old.nodes) rule start end }
        ensures memo { IsOfferedAt (state_by self.old).memo (rule, start)
            (StoredMatch end (drop at (closed_at at (nodes_of self.old.nodes) rule start end))) result
            (state_by self.new).memo }
        ensures cuts { (count : ℕ) → count ≤ at → IsCut self.old.nodes count → IsCut self.new.nodes count }
    {
        let index = self.nodes.close(rule, Span::new(start, end));
        let items = self.nodes.items_from(index) as u64;
        let nodes = (self.nodes.len() - at) as u64;
        let size = Size::of_match(items, nodes, start, end);
        if self.is_wanted(rule, start, size) {
            return self.store_match(index, at, rule, start, end, size);
        }
        false
    }

    // Stores a match whose nodes are those from `at` on, if it is wanted. Returns whether it is stored now.
    fn close_hidden(&mut self, at: usize, rule: u32, start: u32, end: u32) -> bool
        requires are_closed { AreClosed (drop at (nodes_of self.old.nodes)) }
        requires within { at ≤ length (nodes_of self.old.nodes) }
        ensures nodes { nodes_of self.new.nodes ≡ nodes_of self.old.nodes }
        ensures memo { IsOfferedAt (state_by self.old).memo (rule, start)
            (StoredMatch end (drop at (nodes_of self.old.nodes))) result (state_by self.new).memo }
        ensures cuts { (count : ℕ) → count ≤ at → IsCut self.old.nodes count → IsCut self.new.nodes count }
    {
        let count = self.nodes.len() - at;
        let size = Size::of_match(self.items_after(at, count), count as u64, start, end);
        if self.is_wanted(rule, start, size) {
            return self.store_hidden(at, rule, start, end, size);
        }
        false
    }

    // Stores a match whose nodes are those from `at` on. Returns whether it is stored now.
    fn store_hidden(&mut self, at: usize, rule: u32, start: u32, end: u32, size: Size) -> bool
        requires are_closed { AreClosed (drop at (nodes_of self.old.nodes)) }
        ensures nodes { nodes_of self.new.nodes ≡ nodes_of self.old.nodes }
        ensures memo { IsOfferedAt (state_by self.old).memo (rule, start)
            (StoredMatch end (drop at (nodes_of self.old.nodes))) result (state_by self.new).memo }
        ensures cuts { (count : ℕ) → count ≤ at → IsCut self.old.nodes count → IsCut self.new.nodes count }
    {
        if at >= self.nodes.len() {
            let link = self.nodes.empty_link();
            return self.store(rule, start, LinkedResult::Matched { end, link }, size);
        }
        match self.nodes.item_at(at, usize::MAX) {
            Some(index) => self.store_match(index, at, rule, start, end, size),
            None => false,
        }
    }

    // The number of items of the nodes from `at` on, of which there are `count`; `count` if there are too many items to
    // count them.
    fn items_after(&self, at: usize, count: usize) -> u64 {
        match self.nodes.item_at(at, MAX_COUNTED_ITEMS) {
            Some(index) => self.nodes.items_from(index) as u64,
            None => count as u64,
        }
    }

    // Moves the nodes from an item on to the store, and stores a match with a link to them.
    #[inline(never)]
    fn store_match(
        &mut self,
        index: usize,
        at: usize,
        rule: u32,
        start: u32,
        end: u32,
        size: Size,
    ) -> bool
        requires place { IsItemAt self.old.nodes index at }
        requires are_closed { AreClosed (drop at (nodes_of self.old.nodes)) }
        ensures nodes { nodes_of self.new.nodes ≡ nodes_of self.old.nodes }
        ensures memo { IsOfferedAt (state_by self.old).memo (rule, start)
            (StoredMatch end (drop at (nodes_of self.old.nodes))) result (state_by self.new).memo }
        ensures cuts { (count : ℕ) → count ≤ at → IsCut self.old.nodes count → IsCut self.new.nodes count }
        ensures kept { ¬ IsTrue result → IsTrue self.new.out_of_memory }
    {
        match self.nodes.store_from(index, at) {
            Ok(link) => self.store(rule, start, LinkedResult::Matched { end, link }, size),
            Err(_error) => {
                self.allocation_failed = true;
                self.out_of_memory = true;
                false
            }
        }
    }

    // Stores a result, and evicts others for it. Returns whether it is stored now; if not, the memo is out of memory.
    // It isn't inlined, since most results are declined.
    #[inline(never)]
    fn store(&mut self, rule: u32, position: u32, linked: LinkedResult, size: Size) -> bool
        requires { IsLinked self.old.nodes linked }
        ensures nodes { self.new.nodes ≡ self.old.nodes }
        ensures memo { IsOfferedAt (state_by self.old).memo (rule, position) (stored_result self.old.nodes linked)
            result (state_by self.new).memo }
        ensures kept { ¬ IsTrue result → IsTrue self.new.out_of_memory }
    {
        let stored = self.put_or_evict(rule, position, linked);
        if stored {
            self.policy.note_stored(rule, position, size);
        } else {
            self.out_of_memory = true;
        }
        stored
    }

    // Stores a result. As long as an allocation for it fails, the least recently used entry is evicted, whose memory
    // may serve. Returns whether the result is stored now; if not, no entry is left.
    fn put_or_evict(&mut self, rule: u32, position: u32, linked: LinkedResult) -> bool
        requires { IsLinked self.old.nodes linked }
        ensures nodes { self.new.nodes ≡ self.old.nodes }
        ensures memo { IsOfferedAt (state_by self.old).memo (rule, position) (stored_result self.old.nodes linked)
            result (state_by self.new).memo }
        ensures none_left { ¬ IsTrue result → self.new.results ≡ [] }
    {
        'tries: while !self.results.put(rule, position, linked) {
            self.allocation_failed = true;
            if !self.results.evict() {
                return false;
            }
        }
        true
    }
}

impl NodeStore for SelectiveStore<'_> {
    ghost use Rattle.peg_memo_policy.specs.SelectiveStore.{state_by};

    ghost state = { λ store. state_by store };

    ghost cuts = { λ store count. IsCut store.nodes count };

    ghost out_of_memory = { λ store. store.out_of_memory || store.policy.out_of_memory };

    ghost lender = { λ _. None };

    fn may_store(&self) -> bool {
        true
    }

    fn is_out_of_memory(&self) -> bool {
        self.out_of_memory || self.policy.is_out_of_memory()
    }

    #[inline(always)]
    fn len(&self) -> usize {
        self.nodes.len()
    }

    #[inline(always)]
    fn push(&mut self, node: TreeNode) -> Result<(), AllocError> {
        self.nodes.push(node)
    }

    fn truncate(&mut self, count: usize) {
        self.nodes.truncate(count);
    }

    fn touch(&mut self, rule: u32, position: u32) {
        self.hit = false;
        if self.policy.should_look_up(rule, position) {
            self.hit = self.lookup_and_touch(rule, position);
            if !self.hit {
                self.policy.begin();
            }
        }
    }

    fn recall(&mut self, rule: u32, position: u32) -> Result<Recalled, AllocError> {
        if !self.hit {
            return Ok(Recalled::Nothing);
        }
        match self.results.find(rule, position) {
            None => Ok(Recalled::Nothing),
            Some(LinkedResult::Failed) => Ok(Recalled::Failed),
            Some(LinkedResult::Matched { end, link }) => {
                self.nodes.append(link)?;
                Ok(Recalled::Matched { end })
            }
        }
    }

    fn fail(&mut self, rule: u32, position: u32) -> bool {
        let size = Size::of_failure();
        if self.is_wanted(rule, position, size) {
            return self.store(rule, position, LinkedResult::Failed, size);
        }
        false
    }

    fn finish(&mut self, at: usize, rule: u32, start: u32, end: u32) -> bool {
        self.make_room_if_full(end);
        self.close(at, rule, start, end)
    }

    fn finish_hidden(&mut self, at: usize, rule: u32, start: u32, end: u32) -> bool {
        self.make_room_if_full(end);
        self.close_hidden(at, rule, start, end)
    }

    fn take_nodes(&mut self) -> Result<Vec<TreeNode>, AllocError> {
        self.results.clear();
        self.nodes.take_nodes()
    }
}
