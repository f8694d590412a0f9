//! Tracers: receivers of the rule calls of a run.
ghost use Rattle.std.specs.Prelude.{◌≡◌, ◌∷◌, [], map, ⊤, false, true, Bool, IsTrue, List, OnErr, OnOk};
ghost use Rattle.peg_semantics.specs.Record.{RuleCall};
ghost use Rattle.peg_machine.specs.Traced.{GetsCalls};
ghost use Rattle.peg_machine.specs.Watched.{traced_call, call_of};

use std::alloc::{AllocError, Global};
use std::marker::Model;

/// A tracer of rule calls. It is called for each rule body that runs, in order, the start first. Calls that a memo
/// answers are left out.
pub trait Watch {
    // whether the contracts promise anything about the calls traced
    ghost records: { Bool };

    // whether a state has traced these calls so far, in order; a tracer needn't store them
    ghost traced: { Self → List RuleCall → Type 0 };

    /// Returns whether the tracer is active. An inactive tracer isn't called for every body.
    fn is_active(&self) -> bool
        ensures { ¬ IsTrue result → records ≡ false }
    {
        true
    }

    /// Records that the body of a rule runs from a position. An `Err` leaves the calls recorded so far.
    fn begin(&mut self, rule: u32, position: u32) -> Result<(), AllocError>
        ensures ok { OnOk result (GetsCalls records traced self.old self.new (traced_call rule position ∷ [])) }
        ensures err { OnErr result (GetsCalls records traced self.old self.new []) };
}

/// A tracer that ignores all calls.
#[derive(Clone, Copy, Debug, Drop)]
pub struct NoWatch;

impl Watch for NoWatch {
    ghost records = { false };

    ghost traced = { λ _ _. ⊤ };

    fn is_active(&self) -> bool {
        false
    }

    fn begin(&mut self, _rule: u32, _place: u32) -> Result<(), AllocError> {
        Ok(())
    }
}

/// A tracer that stores the calls in a list.
#[derive(Debug, Drop)]
pub struct ListWatch {
    pairs: Vec<(u32, u32)>,
}

impl Model for ListWatch {
    ghost use Rattle.std.specs.Prelude.{map, List};
    ghost use Rattle.peg_semantics.specs.Record.{RuleCall};
    ghost use Rattle.peg_machine.specs.Watched.{call_of};

    ghost Value = { List RuleCall };

    ghost view = { λ watch. map call_of watch.pairs.items };
}

impl ListWatch {
    /// Returns an empty list. Doesn't allocate.
    pub fn new(alloc: Global) -> ListWatch
        ensures { result ≡ [] }
    {
        ListWatch {
            pairs: Vec::new(alloc),
        }
    }

    /// Returns the rule numbers and the start positions of the calls, in order.
    pub fn pairs(&self) -> &[(u32, u32)]
        ensures { map call_of result.now ≡ self.now }
    {
        &self.pairs
    }
}

impl Watch for ListWatch {
    ghost records = { true };

    ghost traced = { λ watch calls. watch ≡ calls };

    fn begin(&mut self, rule: u32, position: u32) -> Result<(), AllocError> {
        self.pairs.push((rule, position))?;
        Ok(())
    }
}
