//! The mutable state of the reference evaluator.
ghost use Rattle.std.specs.Prelude.{◌≡◌, ◌<◌, ◌↔◌, All, IsTrue, OnOk};
ghost use Rattle.std.specs.List.Sorted.{IsStrictlyIncreasing};
ghost use Rattle.peg_semantics.specs.FurthestPass.{insert_ascending};

use peg_tree::TreeNode;
use std::alloc::{AllocError, AllocFailed, Global};

/// Whether an expression matched, and the end of the match.
#[derive(Clone, Copy, Debug, PartialEq, Eq)]
pub(crate) enum MatchResult {
    EndsAt { end: u32 },
    Fails,
}

/// Why an evaluation stopped early.
#[derive(Clone, Copy, Debug, PartialEq, Eq)]
pub(crate) enum Abort {
    AtDepth,
    OutOfMemory,
}

impl From<AllocError> for Abort {
    ghost use Rattle.std.specs.Prelude.{◌≡◌};
    ghost use Rattle.peg_grammar.specs.declared.found.Abort.TheVariants.{OutOfMemory};

    ghost from_gives = { λ _ stop. stop ≡ OutOfMemory };

    fn from(_error: AllocError) -> Abort {
        Abort::OutOfMemory
    }
}

impl<T: Drop> From<AllocFailed<T>> for Abort {
    ghost use Rattle.std.specs.Prelude.{◌≡◌};
    ghost use Rattle.peg_grammar.specs.declared.found.Abort.TheVariants.{OutOfMemory};

    ghost from_gives = { λ _ stop. stop ≡ OutOfMemory };

    fn from(_error: AllocFailed<T>) -> Abort {
        Abort::OutOfMemory
    }
}

/// The furthest failure so far: a position, and the terminals that failed there, ascending.
#[derive(Debug, Drop)]
pub(crate) struct Furthest {
    pub(crate) far: u32,
    pub(crate) expected: Vec<u32>,
    ghost ascending: { IsStrictlyIncreasing expected.items },
}

/// The furthest failure so far, and the nodes of the trees so far.
#[derive(Debug, Drop)]
pub(crate) struct Found {
    pub(crate) furthest: Furthest,
    pub(crate) rows: Vec<TreeNode>,
}

impl Furthest {
    ghost use Rattle.std.specs.Prelude.{◌≡◌, OnOk};
    ghost use Rattle.peg_grammar.specs.Found.{furthest_in};
    ghost use Rattle.peg_semantics.specs.FurthestPass.{note_test};
    ghost use Rattle.peg_semantics.specs.Record.{test_of};

    /// Records that the test of a terminal failed at a position.
    pub(crate) fn note(&mut self, terminal: u32, position: u32) -> Result<(), AllocError>
        ensures { OnOk result (furthest_in self.new ≡ note_test (furthest_in self.old) (test_of terminal position)) }
    {
        if position < self.far {
            return Ok(());
        }
        if self.far < position {
            self.far = position;
            self.expected.clear();
            self.expected.push(terminal)?;
            return Ok(());
        }
        insert_ascending(&mut self.expected, terminal)
    }
}

// Inserts a number into an ascending list unless the list contains it. Constant time for a number above all others;
// else binary search, and the greater numbers move.
fn insert_ascending(numbers: &mut Vec<u32>, number: u32) -> Result<(), AllocError>
    requires { IsStrictlyIncreasing numbers.old.items }
    ensures inserted { OnOk result (numbers.new.items ≡ insert_ascending number numbers.old.items) }
    ensures ascending { IsStrictlyIncreasing numbers.new.items }
{
    if is_above_all(numbers, number) {
        numbers.push(number)?;
        return Ok(());
    }
    match numbers.binary_search(&number) {
        Ok(_) => Ok(()),
        Err(at) => {
            numbers.insert(at, number)?;
            Ok(())
        }
    }
}

// Whether a number is greater than all numbers of an ascending list.
fn is_above_all(numbers: &[u32], number: u32) -> bool
    requires { IsStrictlyIncreasing numbers.now }
    ensures { IsTrue result ↔ All (λ n. n < number) numbers.now }
{
    match numbers.last() {
        None => true,
        Some(last) => *last < number,
    }
}
