//! The rules that are called from some rules.
ghost use Rattle.std.specs.Prelude.{◌≡◌};
ghost use Rattle.peg_spacing.specs.Spacing.{has_flag};

use peg_grammar::{Expr, Grammar};
use std::alloc::{AllocError, Global};

/// Returns the flag of the rule with a number. Constant time.
pub(crate) fn has_flag(flags: &[bool], rule: usize) -> bool
    ensures { result ≡ has_flag flags.now rule }
{
    match flags.get(rule) {
        Some(flag) => *flag,
        None => false,
    }
}

/// Rules that are called from some rules, by number.
#[derive(Drop)]
pub(crate) struct Called {
    pub(crate) flags: Vec<bool>,
}

impl Called {
    ghost use Rattle.std.specs.Prelude.{◌≡◌, ◌<◌, ◌==◌, ◌&&◌, ◌||◌, ℕ, Bool, false, not, length, map, position, bytes_eq, IfOk};
    ghost use Rattle.peg_grammar.specs.GrammarRules.{rules_in};
    ghost use Rattle.peg_grammar.specs.Written.{form_of};
    ghost use Rattle.peg_semantics.specs.Form.{forms, names_used, names_used_by_all};
    ghost use Rattle.peg_semantics.specs.Rules.{names};
    ghost use Rattle.peg_spacing.specs.Spacing.{has_flag, is_called_by, is_number, refer_to, references_in};

    /// Returns the rules that other rules with a flag call. Takes time linear in the grammar, apart from hashing. The
    /// only error is a failed allocation.
    pub(crate) fn by(
        alloc: Global,
        grammar: &Grammar,
        callers: &[bool],
    ) -> Result<Called, AllocError>
        ensures { IfOk result (λ called. (rule : ℕ)
            → has_flag called.flags.items rule ≡ is_called_by (rules_in grammar.now) callers.now rule) }
    {
        let mut called = Called::none(alloc, grammar.rules() as usize)?;
        'callers: for caller in 0..grammar.rules() {
            called.add_caller(grammar, callers, caller);
        }
        Ok(called)
    }

    // Returns no rules, for a grammar with this many.
    fn none(alloc: Global, rules: usize) -> Result<Called, AllocError>
        ensures count { IfOk result (λ called. length called.flags.items ≡ rules) }
        ensures none { IfOk result (λ called. (rule : ℕ) → has_flag called.flags.items rule ≡ false) }
    {
        let flags = vec![in alloc; false; rules]?;
        Ok(Called { flags })
    }

    // Adds the rules that a rule calls, without itself, if it has a flag.
    fn add_caller(&mut self, grammar: &Grammar, callers: &[bool], caller: u32)
        requires count { length self.old.flags.items ≡ length (rules_in grammar.now) }
        requires rule { caller < length (rules_in grammar.now) }
        ensures count { length self.new.flags.items ≡ length self.old.flags.items }
        ensures added { (rule : ℕ) → has_flag self.new.flags.items rule ≡ (has_flag self.old.flags.items rule
            || (has_flag callers.now caller && (not (caller == rule)
            && refer_to (rules_in grammar.now) (references_in (rules_in grammar.now) caller) rule))) }
    {
        if !has_flag(callers, caller as usize) {
            return;
        }
        self.add_calls(grammar, caller);
    }

    // Adds the rules that a rule calls, without itself.
    fn add_calls(&mut self, grammar: &Grammar, caller: u32)
        requires count { length self.old.flags.items ≡ length (rules_in grammar.now) }
        requires rule { caller < length (rules_in grammar.now) }
        ensures count { length self.new.flags.items ≡ length self.old.flags.items }
        ensures added { (rule : ℕ) → has_flag self.new.flags.items rule ≡ (has_flag self.old.flags.items rule
            || (not (caller == rule)
            && refer_to (rules_in grammar.now) (references_in (rules_in grammar.now) caller) rule)) }
    {
        let index = caller as usize;
        let own = self.flags[index];
        self.add_names(grammar, grammar.body(caller));
        self.flags[index] = own;
    }

    // Adds the rules that an expression refers to. Recurses as deep as expressions nest.
    #[cycle(names)]
    fn add_names(&mut self, grammar: &Grammar, expr: &Expr)
        requires { length self.old.flags.items ≡ length (rules_in grammar.now) }
        ensures count { length self.new.flags.items ≡ length self.old.flags.items }
        ensures added { (rule : ℕ) → has_flag self.new.flags.items rule ≡ (has_flag self.old.flags.items rule
            || refer_to (rules_in grammar.now) (names_used (form_of expr.now)) rule) }
    {
        match expr {
            Expr::Literal { .. } | Expr::Class { .. } | Expr::Any { .. } => {}
            Expr::Name { name, .. } => self.add_name(grammar, name.as_str()),
            Expr::Seq { items, .. } => self.add_all_names(grammar, items),
            Expr::Choice { first, rest, .. } => {
                self.add_names(grammar, first);
                self.add_all_names(grammar, rest)
            }
            Expr::Optional { part, .. }
            | Expr::Star { part, .. }
            | Expr::Plus { part, .. }
            | Expr::Counted { part, .. }
            | Expr::And { part, .. }
            | Expr::Not { part, .. } => self.add_names(grammar, part),
        }
    }

    // Adds the rules that expressions refer to.
    #[cycle(names)]
    fn add_all_names(&mut self, grammar: &Grammar, items: &[Expr])
        requires { length self.old.flags.items ≡ length (rules_in grammar.now) }
        ensures count { length self.new.flags.items ≡ length self.old.flags.items }
        ensures added { (rule : ℕ) → has_flag self.new.flags.items rule ≡ (has_flag self.old.flags.items rule
            || refer_to (rules_in grammar.now) (names_used_by_all (forms (map form_of items.now))) rule) }
    {
        for item in items {
            self.add_names(grammar, item);
        }
    }

    // Adds the rule of a name, if there is one.
    fn add_name(&mut self, grammar: &Grammar, name: &str)
        requires { length self.old.flags.items ≡ length (rules_in grammar.now) }
        ensures count { length self.new.flags.items ≡ length self.old.flags.items }
        ensures added { (rule : ℕ) → has_flag self.new.flags.items rule ≡ (has_flag self.old.flags.items rule
            || is_number (position (bytes_eq name.now) (names (rules_in grammar.now))) rule) }
    {
        if let Some(rule) = grammar.rule_number(name) {
            self.add(rule);
        }
    }

    // Adds a rule.
    fn add(&mut self, rule: u32)
        requires { rule < length self.old.flags.items }
        ensures count { length self.new.flags.items ≡ length self.old.flags.items }
        ensures added { (other : ℕ)
            → has_flag self.new.flags.items other ≡ (has_flag self.old.flags.items other || rule == other) }
    {
        self.flags[rule as usize] = true;
    }
}
