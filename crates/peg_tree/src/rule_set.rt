//! Sets of rules.
ghost use Rattle.std.specs.Prelude.{◌≡◌, ◌<◌, ◌==◌, ◌||◌, ◌&&◌, ℕ, IfOk, false, length, nat_lt, not};
ghost use Rattle.peg_tree.specs.Selected.{has_rule};

use std::alloc::{AllocError, Global};
use std::marker::Model;

/// A set of rules, by their numbers.
#[derive(Debug, Drop)]
pub struct RuleSet {
    flags: Vec<bool>,
}

impl Model for RuleSet {
    ghost use Rattle.std.specs.Prelude.{Bool, List};

    ghost Value = { List Bool };

    ghost view = { λ set. set.flags.items };
}

impl RuleSet {
    /// Returns the empty set, for a grammar with this many rules. The only error is a failed allocation.
    pub fn none(alloc: Global, rules: u32) -> Result<RuleSet, AllocError>
        ensures count { IfOk result (λ set. length set ≡ rules) }
        ensures empty { IfOk result (λ set. (rule : ℕ) → has_rule set rule ≡ false) }
    {
        let flags = vec![in alloc; false; rules as usize]?;
        Ok(RuleSet { flags })
    }

    /// Returns the set of all rules of a grammar with this many. The only error is a failed allocation.
    pub fn all(alloc: Global, rules: u32) -> Result<RuleSet, AllocError>
        ensures count { IfOk result (λ set. length set ≡ rules) }
        ensures full { IfOk result (λ set. (rule : ℕ) → has_rule set rule ≡ nat_lt rule rules) }
    {
        let flags = vec![in alloc; true; rules as usize]?;
        Ok(RuleSet { flags })
    }

    /// Adds a rule to the set. Constant time.
    pub fn insert(&mut self, rule: u32)
        requires { rule < length self.old }
        ensures count { length self.new ≡ length self.old }
        ensures added { (other : ℕ) → has_rule self.new other ≡ ((other == rule) || has_rule self.old other) }
    {
        self.flags[rule as usize] = true;
    }

    /// Removes a rule from the set. Constant time.
    pub fn remove(&mut self, rule: u32)
        requires { rule < length self.old }
        ensures count { length self.new ≡ length self.old }
        ensures removed { (other : ℕ) → has_rule self.new other ≡ (not (other == rule) && has_rule self.old other) }
    {
        self.flags[rule as usize] = false;
    }

    /// Returns whether a rule is in the set. Constant time.
    pub fn contains(&self, rule: u32) -> bool
        ensures { result ≡ has_rule self.now rule }
    {
        match self.flags.get(rule as usize) {
            Some(flag) => *flag,
            None => false,
        }
    }
}
