//! The order of the memo that evicts the least recently used entry; the memo that stores nothing; lines and columns,
//! lists of nodes that are one tree or not, and sets of bytes by number.
ghost use Rattle.std.specs.Prelude.{◌≤◌};

use peg_bytes::{ByteSet, LineColumn, SetPool, place};
use peg_fixtures::node;
use peg_memo::{Found, Keep, LruMemo, NoMemo};
use peg_tree::{TreeNode, one_tree};
use std::alloc::Global;
use std::process::Abort;
use std::test::Fail;

// A memo of this capacity.
fn memo_of(rt: &impl Abort, alloc: Global, capacity: u32) -> LruMemo
    requires { 1 ≤ capacity }
{
    LruMemo::new(alloc, capacity).ok().expect(rt, "memory")
}

// Offers the memo a failure of rule 0. Returns whether it is stored.
fn keeps<K: Keep>(memo: &mut K, position: u32) -> bool {
    memo.keep(0, position, Found::Failed)
}

// Marks an entry of rule 0 as used, if there is one.
fn touch(memo: &mut LruMemo, position: u32) {
    memo.touch(0, position);
}

// Whether the memo has a failure of a rule at a position.
fn fails<K: Keep>(memo: &K, rule: u32, position: u32) -> bool {
    matches!(memo.find(rule, position), Some(Found::Failed))
}

// Fills a memo of two entries, and stores a third one when the first was used again.
fn fill(memo: &mut LruMemo) -> bool {
    touch(memo, 0);
    let filled = keeps(memo, 0) && keeps(memo, 1);
    touch(memo, 0);
    filled && keeps(memo, 2)
}

#[test]
fn the_least_recently_used_is_evicted(rt: HostRuntime) {
    let mut memo = memo_of(&rt, rt.alloc(), 2);
    assert!(rt; memo.is_empty() && fill(&mut memo));
    assert!(rt; fails(&memo, 0, 0) && !fails(&memo, 0, 1) && fails(&memo, 0, 2));
    assert!(rt; !fails(&memo, 1, 2) && !fails(&memo, 2, 0));
}

#[test]
fn a_memo_without_entries_stores_nothing(rt: HostRuntime) {
    let mut none = NoMemo;
    assert!(rt; none.is_empty() && !keeps(&mut none, 7) && !fails(&none, 0, 7));
}

// Stores a match of rule 1 at 2 to 5, of two nodes, in the place of its failure.
fn keep_match(memo: &mut LruMemo) -> bool {
    let nodes = [node(1, 2, 5, 2), node(4, 3, 5, 1)];
    let (end, nodes) = (5, nodes.as_slice());
    memo.keep(1, 2, Found::Failed) && memo.keep(1, 2, Found::Done { end, nodes })
}

// Whether the memo has that match.
fn has_match(memo: &LruMemo) -> bool {
    let wanted = [node(1, 2, 5, 2), node(4, 3, 5, 1)];
    match memo.find(1, 2) {
        Some(Found::Done { end, nodes }) => end == 5 && nodes == wanted.as_slice(),
        _ => false,
    }
}

// Evicts the last entry. Returns the number of its nodes.
fn evict(memo: &mut LruMemo) -> Option<usize> {
    memo.evict_lru()
}

// A later result replaces an earlier one. Evicting an entry returns the number of its nodes.
#[test]
fn the_last_entry_can_be_evicted(rt: HostRuntime) {
    let mut memo = memo_of(&rt, rt.alloc(), 8);
    assert!(rt; keeps(&mut memo, 3) && keep_match(&mut memo));
    touch(&mut memo, 3);
    assert!(rt; has_match(&memo) && evict(&mut memo) == Some(2) && !has_match(&memo));
    assert!(rt; evict(&mut memo) == Some(0) && evict(&mut memo).is_none());
}

// A node without bytes, whose subtree has this many nodes.
fn root_of(size: u64) -> TreeNode {
    node(0, 0, 0, size)
}

// The root's size is the length of the list, and each subtree is within the one above it. Between the CR and the LF of
// a line end the line goes on.
#[test]
fn places_and_trees_are_worked(rt: HostRuntime) {
    assert_eq!(rt; place(b"a\r\n", 2), LineColumn { line: 1, column: 3 });
    assert!(rt; one_tree(&[root_of(3), root_of(1), root_of(1)]) && !one_tree(&[]));
    assert!(rt; !one_tree(&[root_of(2), root_of(1), root_of(1)]));
    assert!(rt; !one_tree(&[root_of(3), root_of(3), root_of(1)]));
}

#[test]
fn a_set_that_equals_the_last_one_is_not_stored_again(rt: HostRuntime) -> Result<(), Fail> {
    let mut pool = SetPool::new(rt.alloc());
    let first = pool.add(ByteSet::single(b'a'))?;
    let same = pool.add(ByteSet::single(b'a'))?;
    let other = pool.add(ByteSet::single(b'b'))?;
    assert_eq!(rt; (first, same, other), (0, 0, 1));
    Ok(())
}
