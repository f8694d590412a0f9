//! Which nodes are written.
ghost use Rattle.std.specs.Prelude.{◌≡◌, ℕ, Bool, true};
ghost use Rattle.peg_tree.specs.Selected.{has_rule};

use crate::RuleSet;

// The rules whose nodes are written.
pub(crate) trait Shows {
    ghost shown: { Self → ℕ → Bool };

    // Returns whether the nodes of a rule are written.
    fn shows(&self, rule: u32) -> bool
        ensures { result ≡ shown self.now rule };
}

// All rules.
pub(crate) struct AllRules;

impl Shows for AllRules {
    ghost shown = { λ _ _. true };

    #[inline(always)]
    fn shows(&self, rule: u32) -> bool {
        let _ = rule;
        true
    }
}

impl Shows for RuleSet {
    ghost shown = { λ set. has_rule set };

    #[inline(always)]
    fn shows(&self, rule: u32) -> bool {
        self.contains(rule)
    }
}
