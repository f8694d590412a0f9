//! The interface of what a run stores: its nodes, and a memo.
ghost use Rattle.std.specs.Prelude.{◌≡◌, ◌^◌, ◌<◌, ◌≤◌, ◌∷◌, ◌++◌, [], ℕ, Bool, IfOk, IsTrue, OnOk, Option, drop, length, map, take};
ghost use Rattle.std.specs.Borrow.{GName};
ghost use Rattle.peg_memo.specs.StoredResult.{StoredFailure, StoredMatch};
ghost use Rattle.peg_memo.specs.StoreState.{closed_at, with_nodes, IsOfferedAt, IsTouched, Recalls, StoreState};
ghost use Rattle.peg_nodes.specs.OpenNodes.{AreClosed, IsOpenAt};
ghost use Rattle.peg_tree.specs.Rows.{row_of};

use peg_tree::TreeNode;
use std::alloc::AllocError;

/// What a memo gives for a call.
#[derive(Clone, Copy, Debug, PartialEq, Eq)]
pub enum Recalled {
    /// The call has no entry.
    Nothing,
    /// The rule failed.
    Failed,
    /// The rule matched up to the byte offset `end`. Its nodes were appended.
    Matched { end: u32 },
}

/// The nodes of a run, in preorder, and the memo of its calls. The node of an active call is open: its size is 0. The
/// nodes may be kept in another form, as links to stored results. The contracts speak of all nodes.
///
/// After an `Err` nothing is promised of the nodes.
pub trait NodeStore {
    // the nodes so far, and the memo
    ghost state: { Self → StoreState };

    // whether the nodes may be truncated to this number
    ghost cuts: { Self → ℕ → Type 0 };

    // whether the memo can hold no entry, since an allocation has failed
    ghost out_of_memory: { Self → Bool };

    // the reference to a memo that the store borrows, if it borrows one; it never changes
    ghost lender: { Self → Option GName };

    /// Returns whether the memo may ever store a result. It returns false only for a memo without capacity. For such a
    /// memo the machine may omit lookups and stores.
    fn may_store(&self) -> bool
        ensures { ¬ IsTrue result → (state self.now).memo.capacity ≡ 0 };

    /// Returns whether the memo is out of memory: an allocation has failed, and no entry can be held without it.
    fn is_out_of_memory(&self) -> bool
        ensures { result ≡ out_of_memory self.now };

    /// Returns the number of nodes.
    fn len(&self) -> usize
        ensures number { result ≡ length (state self.now).nodes }
        ensures few { result < 2 ^ 63 }
        ensures cut { cuts self.now result };

    /// Appends a node. It is open if its size is 0. Returns an error if an allocation fails.
    fn push(&mut self, node: TreeNode) -> Result<(), AllocError>
        ensures state { OnOk result (state self.new
            ≡ with_nodes (state self.old) ((state self.old).nodes ++ row_of node ∷ [])) }
        ensures cuts { OnOk result ((count : ℕ) → cuts self.old count → cuts self.new count) }
        ensures end { OnOk result (cuts self.new (length (state self.new).nodes)) }
        ensures lender { lender self.new ≡ lender self.old };

    /// Removes all nodes from the index `count` on.
    fn truncate(&mut self, count: usize)
        requires { cuts self.old count }
        ensures state { state self.new ≡ with_nodes (state self.old) (take count (state self.old).nodes) }
        ensures cuts { (fewer : ℕ) → fewer ≤ count → cuts self.old fewer → cuts self.new fewer }
        ensures lender { lender self.new ≡ lender self.old };

    /// Marks the entry of a rule at a position as used, if there is one.
    fn touch(&mut self, rule: u32, position: u32)
        ensures nodes { (state self.new).nodes ≡ (state self.old).nodes }
        ensures memo { IsTouched (state self.old).memo (state self.new).memo }
        ensures cuts { (count : ℕ) → cuts self.old count → cuts self.new count }
        ensures lender { lender self.new ≡ lender self.old };

    /// Looks up the entry of a rule at a position, and appends the nodes of a match. Returns an error if an allocation
    /// fails.
    fn recall(&mut self, rule: u32, position: u32) -> Result<Recalled, AllocError>
        ensures recalled { IfOk result (λ recalled. Recalls (state self.old) (rule, position) recalled (state self.new)) }
        ensures cuts { OnOk result ((count : ℕ) → cuts self.old count → cuts self.new count) }
        ensures lender { lender self.new ≡ lender self.old };

    /// Offers the failure of a rule at a position to the memo. Returns whether it is stored now.
    fn fail(&mut self, rule: u32, position: u32) -> bool
        ensures nodes { (state self.new).nodes ≡ (state self.old).nodes }
        ensures memo { IsOfferedAt (state self.old).memo (rule, position) StoredFailure result (state self.new).memo }
        ensures cuts { (count : ℕ) → cuts self.old count → cuts self.new count }
        ensures lender { lender self.new ≡ lender self.old };

    /// Closes the newest open node, which is at the index `at`: its rule has matched from `start` to `end`. Offers the
    /// result to the memo, and returns whether it is stored now.
    fn finish(&mut self, at: usize, rule: u32, start: u32, end: u32) -> bool
        requires open { IsOpenAt (state self.old).nodes at }
        requires order { start ≤ end }
        ensures nodes { (state self.new).nodes ≡ closed_at at (state self.old).nodes rule start end }
        ensures memo { IsOfferedAt (state self.old).memo (rule, start)
            (StoredMatch end (drop at (closed_at at (state self.old).nodes rule start end))) result
            (state self.new).memo }
        ensures cuts { (count : ℕ) → count ≤ at → cuts self.old count → cuts self.new count }
        ensures lender { lender self.new ≡ lender self.old };

    /// Offers a match without a node of its own to the memo: a rule has matched from `start` to `end`, and the nodes
    /// within it are those from the index `at` on. Returns whether it is stored now. The nodes stay.
    fn finish_hidden(&mut self, at: usize, rule: u32, start: u32, end: u32) -> bool
        requires cut { cuts self.old at }
        requires are_closed { AreClosed (drop at (state self.old).nodes) }
        requires within { at ≤ length (state self.old).nodes }
        requires order { start ≤ end }
        ensures nodes { (state self.new).nodes ≡ (state self.old).nodes }
        ensures memo { IsOfferedAt (state self.old).memo (rule, start)
            (StoredMatch end (drop at (state self.old).nodes)) result (state self.new).memo }
        ensures cuts { (count : ℕ) → count ≤ at → cuts self.old count → cuts self.new count }
        ensures lender { lender self.new ≡ lender self.old };

    /// Removes all nodes and returns them. The memo may lose its entries. Returns an error if an allocation fails.
    fn take_nodes(&mut self) -> Result<Vec<TreeNode>, AllocError>
        ensures nodes { IfOk result (λ nodes. map row_of nodes.items ≡ (state self.old).nodes) }
        ensures allocation_failed { (state self.new).memo.allocation_failed
            ≡ (state self.old).memo.allocation_failed }
        ensures lender { lender self.new ≡ lender self.old };
}
