//! The nodes of calls that start and end, where some rules are shown.
ghost use Rattle.std.specs.Prelude.{◌≡◌, ◌≤◌, ◌∷◌, [], ℕ, drop, length, IfOk, OnOk};
ghost use Rattle.peg_code.specs.ShownRules.{is_shown_by};
ghost use Rattle.peg_runs.specs.OpenRows.{close_row, open_row, opened, root_rows};
ghost use Rattle.peg_machine.specs.Traced.{starts_at};
ghost use Rattle.peg_tree.specs.Rows.{row_of};
ghost use Rattle.peg_machine.specs.Watched.{traced_call};
ghost use Rattle.peg_machine.specs.WholeCalls.{IsWholeFrom};
ghost use Rattle.peg_memo.specs.StoredResult.{StoredMatch};
ghost use Rattle.peg_memo.specs.StoreState.{with_nodes, IsOfferedAt};

use peg_bytes::Span;
use peg_code::Program;
use peg_memo::NodeStore;
use peg_tree::TreeNode;
use std::alloc::AllocError;

/// Appends the root of a run from a rule, an open node. It is the node of the start's call if its rule is shown, and
/// comes before that call's nodes if not. Returns the number of nodes before those of the call.
pub(crate) fn open_root<S: NodeStore>(
    program: &Program,
    store: &mut S,
    start: u32,
) -> Result<usize, AllocError>
    requires { (S.state store.old).nodes ≡ [] }
    ensures rows { IfOk result (λ rows. rows
        ≡ length (root_rows (is_shown_by program.now.shown) (starts_at start))) }
    ensures state { OnOk result (S.state store.new
        ≡ with_nodes (S.state store.old) (open_row (starts_at start) ∷ [])) }
    ensures cut { IfOk result (S.cuts store.new) }
    ensures lender { S.lender store.new ≡ S.lender store.old }
{
    let before_root = store.len();
    store.push(open_at(start, 0))?;
    if program.shows(start) {
        return Ok(before_root);
    }
    Ok(store.len())
}

/// Appends the open node of a call, if its rule is shown.
pub(crate) fn open_node<S: NodeStore>(
    program: &Program,
    store: &mut S,
    rule: u32,
    position: u32,
) -> Result<(), AllocError>
    ensures state { OnOk result (S.state store.new ≡ with_nodes (S.state store.old)
        (opened (is_shown_by program.now.shown) (S.state store.old).nodes (traced_call rule position))) }
    ensures cuts { OnOk result ((count : ℕ) → S.cuts store.old count → S.cuts store.new count) }
    ensures lender { S.lender store.new ≡ S.lender store.old }
{
    if program.shows(rule) {
        return store.push(open_at(rule, position));
    }
    Ok(())
}

// The open node of a call.
fn open_at(rule: u32, position: u32) -> TreeNode
    ensures { row_of result ≡ open_row (traced_call rule position) }
{
    TreeNode {
        rule,
        span: Span::new(position, position),
        size: 0,
    }
}

/// Ends a call whose children are complete, and whose nodes are those from `at` on: closes its node, if its rule is
/// shown, and offers its result to the memo. Returns whether it is stored now.
pub(crate) fn close_node<S: NodeStore>(
    program: &Program,
    store: &mut S,
    at: usize,
    rule: u32,
    start: u32,
    end: u32,
) -> bool
    requires whole { IsWholeFrom (is_shown_by program.now.shown) (S.state store.old).nodes rule at }
    requires cut { S.cuts store.old at }
    requires order { start ≤ end }
    ensures nodes { (S.state store.new).nodes ≡ close_row (is_shown_by program.now.shown) at (S.state store.old).nodes
        (traced_call rule start) end }
    ensures memo { IsOfferedAt (S.state store.old).memo (rule, start) (StoredMatch end (drop at
        (close_row (is_shown_by program.now.shown) at (S.state store.old).nodes (traced_call rule start) end))) result
        (S.state store.new).memo }
    ensures cuts { (count : ℕ) → count ≤ at → S.cuts store.old count → S.cuts store.new count }
    ensures lender { S.lender store.new ≡ S.lender store.old }
{
    if program.shows(rule) {
        return store.finish(at, rule, start, end);
    }
    store.finish_hidden(at, rule, start, end)
}
