//! The costs of rules and the entries of a selective store, worked out by hand from the code.
ghost use Rattle.std.specs.Prelude.{IfOk, OnOk};
ghost use Rattle.peg_memo_policy.specs.SelectiveStore.{state_by};
ghost use Rattle.peg_nodes.specs.OpenNodes.{IsOpenAt};

use crate::programs::program_of;
use peg_bytes::Span;
use peg_memo::{NodeStore, Recalled};
use peg_memo_policy::{RerunCosts, SelectiveStore};
use peg_tree::TreeNode;
use std::alloc::{AllocError, Global};
use std::test::Fail;

fn costs_of(alloc: Global, file: &[u8]) -> Result<RerunCosts, Fail> {
    Ok(RerunCosts::new(alloc, &program_of(alloc, file)?)?)
}

// The costs of the rules: a `t` for a trivial one, `s` if it is linear on success, `f` if on failure.
fn printed(alloc: Global, costs: &RerunCosts) -> Result<String, Fail> {
    let mut text = String::new(alloc);
    for cost in costs.rules() {
        text.push_str(if cost.trivial { " t" } else { " -" })?;
        text.push_str(if cost.linear_on_success { "s" } else { "-" })?;
        text.push_str(if cost.linear_on_failure { "f" } else { "-" })?;
    }
    Ok(text)
}

const LONG: &[u8] = b"S <- 'abcdefghijklmnopqrstuvwxyzabcdefghijklmnopqrstuvwxyzabcdefghijklm'";

const LONG_WAY: &[u8] =
    b"S <- 'a' / 'b' / 'c' / 'd' / 'e' / 'f' / 'g' / 'h' / 'i' / 'j' / 'k' / 'l' / \
'm' / 'n' / 'o' / 'p' / 'q' / 'r' / 's'* 't'";

#[test]
fn costs_are_worked(rt: HostRuntime) -> Result<(), Fail> {
    let cases: [(&[u8], &str); 7] = [
        (
            b"S <- D D / 'x' !D\nD <- [0-9]\nL <- 'a' L / 'b'",
            " tsf tsf -sf",
        ),
        (b"N <- [0-9]+ W\nW <- ' '*", " -s- -sf"),
        (
            b"S <- [0-9]* 'x' / 'y'\nT <- &([0-9]*) 'y'\nU <- ([0-9]* 'x')*\nV <- '-' [0-9]* / 'y'",
            " --- --- --- -sf",
        ),
        (b"S <- (',' !'-' D)* 'x' / 'y'\nD <- [0-9]", " -sf tsf"),
        (LONG, " ---"),
        (LONG_WAY, " -s-"),
        (b"S <- N 'x' / ' ' / N\nN <- [0-9]+ 'y'", " -sf -s-"),
    ];
    for (file, wanted) in cases {
        let costs = costs_of(rt.alloc(), file)?;
        assert_eq!(rt;
            printed(rt.alloc(), &costs)?.as_str(),
            wanted,
            "of {file:?}"
        );
    }
    Ok(())
}

// Whether the first rule's failure is cheap before a byte, or at the end of the text.
#[test]
fn failures_are_soon_or_not(rt: HostRuntime) -> Result<(), Fail> {
    let digits = b"N <- [0-9]+ 'y'";
    let cases: [(&[u8], Option<u8>, bool); 5] = [
        (digits, Some(b'7'), false),
        (digits, Some(b'y'), true),
        (digits, None, true),
        (LONG_WAY, Some(b'z'), false),
        (LONG_WAY, None, false),
    ];
    for (file, next, is_cheap) in cases {
        let costs = costs_of(rt.alloc(), file)?;
        let cost = costs.rules().first().expect(&rt, "a rule");
        assert_eq!(rt; cost.is_cheap_failure(next), is_cheap, "of {file:?}");
    }
    let costs = costs_of(rt.alloc(), b"N <- M / '-' N\nM <- [0-9]+ 'y'")?;
    let cost = costs.rules().first().expect(&rt, "a rule");
    assert!(rt; cost.slow_next.contains(b'7') && cost.slow_next.contains(b'-'));
    assert!(rt; !cost.slow_next.contains(b'y') && !cost.slow_at_end);
    Ok(())
}

// Rules by number: 0 S, 1 N, 2 W, 3 D.
const FILE: &[u8] = b"S <- N 'x' / N 'y' / D\nN <- [0-9]+ W\nW <- ' '*\nD <- [0-9]";

// Looks up a rule at a position, as a call does.
fn call(store: &mut SelectiveStore<'_>, rule: u32, position: u32) -> Result<Recalled, AllocError> {
    store.touch(rule, position);
    store.recall(rule, position)
}

// Looks up a rule at a position, as a call does. Returns whether there is no entry.
fn begins(store: &mut SelectiveStore<'_>, rule: u32, position: u32) -> Result<bool, AllocError> {
    Ok(call(store, rule, position)? == Recalled::Nothing)
}

// Calls a rule that fails at a position. Returns whether its result is stored.
fn fails(store: &mut SelectiveStore<'_>, rule: u32, position: u32) -> Result<bool, AllocError> {
    Ok(begins(store, rule, position)? && store.fail(rule, position))
}

// Appends a node without children to those of the newest call.
fn push_leaf(store: &mut SelectiveStore<'_>, position: u32, at: usize) -> Result<(), AllocError>
    requires { IsOpenAt (state_by store.old).nodes at }
    ensures { OnOk result (IsOpenAt (state_by store.new).nodes at) }
{
    store.push(TreeNode {
        rule: 2,
        span: Span::new(position, position),
        size: 1,
    })
}

// Opens the node of a call. Returns its index.
fn open(store: &mut SelectiveStore<'_>, rule: u32, position: u32) -> Result<usize, AllocError>
    ensures { IfOk result (λ at. IsOpenAt (state_by store.new).nodes at) }
{
    let at = store.len();
    store.push(TreeNode {
        rule,
        span: Span::new(position, position),
        size: 0,
    })?;
    Ok(at)
}

// Calls rule 1, which matches from the start to an end and has three nodes below its own, or four. Returns whether its
// result is stored.
fn matches(store: &mut SelectiveStore<'_>, end: u32, has_four: bool) -> Result<bool, AllocError> {
    let at = open(store, 1, 0)?;
    push_leaf(store, 0, at)?;
    push_leaf(store, 2, at)?;
    push_leaf(store, 4, at)?;
    if has_four {
        push_leaf(store, 6, at)?;
    }
    Ok(store.finish(at, 1, 0, end))
}

// Offers the store what it declines: the result of the start, of a trivial rule and of an unknown rule, and five nodes,
// which don't pay for the work of a number. Returns whether it stores any of them.
fn stores_any(store: &mut SelectiveStore<'_>) -> Result<bool, AllocError> {
    let kept = fails(store, 3, 0)? || fails(store, 4, 0)? || store.fail(0, 1);
    Ok(kept || begins(store, 1, 0)? && matches(store, 10, true)?)
}

// A store of one entry has the last one.
#[test]
fn a_selective_memo_stores_what_pays(rt: HostRuntime) -> Result<(), Fail> {
    let costs = costs_of(rt.alloc(), FILE)?;
    let mut store = SelectiveStore::new(rt.alloc(), 1, &costs, b"1 2 3 4 5 ")?;
    assert!(rt; !stores_any(&mut store)? && fails(&mut store, 1, 1)?);
    assert_eq!(rt; call(&mut store, 1, 1)?, Recalled::Failed);
    assert!(rt; begins(&mut store, 1, 0)? && matches(&mut store, 8, false)?);
    assert_eq!(rt; call(&mut store, 1, 0)?, Recalled::Matched { end: 8 });
    assert!(rt; begins(&mut store, 1, 1)?);
    Ok(())
}
