//! A tracer that notes which rules are called at a position.
ghost use Rattle.std.specs.Prelude.{◌≡◌, ◌∷◌, [], true, IfOk, length};
ghost use Rattle.peg_blame.specs.Sought.{sought};

use peg_machine::Watch;
use peg_tree::RuleSet;
use std::alloc::{AllocError, Global};

/// A tracer that notes which of a grammar's first rules are called at a position. Takes one byte of memory for each of
/// these rules, whatever the number of calls.
#[derive(Debug, Drop)]
pub(crate) struct CallsAt {
    set: RuleSet,
    rules: u32,
    at: u32,
    ghost count: { length set ≡ rules },
}

impl CallsAt {
    ghost use Rattle.peg_blame.specs.CallsAt.{HasNoted};

    /// Returns a tracer that has noted no call, for the first rules of this number and a position. The only error is a
    /// failed allocation.
    pub(crate) fn new(alloc: Global, rules: u32, at: u32) -> Result<CallsAt, AllocError>
        ensures { IfOk result (λ calls. HasNoted calls (sought rules at ∷ [])) }
    {
        Ok(CallsAt {
            set: RuleSet::none(alloc, rules)?,
            rules,
            at,
        })
    }

    /// Returns the rules that were called at the position. Constant time.
    pub(crate) fn into_rules(self) -> RuleSet
        ensures { result ≡ self.set }
    {
        self.set
    }
}

impl Watch for CallsAt {
    ghost use Rattle.peg_blame.specs.CallsAt.{HasNoted};

    ghost records = { true };

    ghost traced = { HasNoted };

    fn begin(&mut self, rule: u32, position: u32) -> Result<(), AllocError> {
        if position == self.at && rule < self.rules {
            self.set.insert(rule);
        }
        Ok(())
    }
}
