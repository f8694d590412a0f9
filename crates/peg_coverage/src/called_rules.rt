//! A tracer that notes which rules are called.
ghost use Rattle.std.specs.Prelude.{◌≡◌, ◌≤◌, ◌<◌, ◌||◌, ℕ, [], true, IfOk, List, length};
ghost use Rattle.peg_diagnostics.specs.Attempts.{has_call};
ghost use Rattle.peg_semantics.specs.Record.{RuleCall};
ghost use Rattle.peg_tree.specs.Selected.{has_rule};

use peg_machine::Watch;
use peg_tree::RuleSet;
use std::alloc::{AllocError, Global};

/// A tracer that notes which rules are called. Takes one byte of memory for each rule, whatever the number of calls.
#[derive(Debug, Drop)]
pub(crate) struct CalledRules {
    set: RuleSet,
    rules: u32,
    ghost count: { length set ≡ rules },
}

impl CalledRules {
    ghost use Rattle.peg_coverage.specs.Called.{HasCalled};

    /// Returns a tracer that has noted no rule, for a grammar with this many. The only error is a failed allocation.
    pub(crate) fn new(alloc: Global, rules: u32) -> Result<CalledRules, AllocError>
        ensures { IfOk result (λ called. HasCalled called []) }
    {
        Ok(CalledRules {
            set: RuleSet::none(alloc, rules)?,
            rules,
        })
    }

    /// Adds the called rules to a set, of the first rules of this number. Linear in this number.
    pub(crate) fn add_to(&self, rules: u32, used: &mut RuleSet)
        requires { rules ≤ length used.old }
        ensures count { length used.new ≡ length used.old }
        ensures added { (calls : List RuleCall) → HasCalled self.now calls → (rule : ℕ) → rule < rules
            → has_rule used.new rule ≡ (has_call rule calls || has_rule used.old rule) }
    {
        'rules: for rule in 0..rules {
            if self.set.contains(rule) {
                used.insert(rule);
            }
        }
    }
}

impl Watch for CalledRules {
    ghost use Rattle.peg_coverage.specs.Called.{HasCalled};

    ghost records = { true };

    ghost traced = { HasCalled };

    fn begin(&mut self, rule: u32, _position: u32) -> Result<(), AllocError> {
        if rule >= self.rules {
            return Err(AllocError);
        }
        self.set.insert(rule);
        Ok(())
    }
}
