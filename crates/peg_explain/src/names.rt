//! Which rules a message names, and for which items they stand.
ghost use Rattle.std.specs.Prelude.{◌≡◌, ◌<◌, ◌≤◌, ◌∷◌, ◌++◌, ◌==◌, ◌&&◌, ℕ, [], All, List, IfErr, IfOk, OnOk};
ghost use Rattle.std.specs.Prelude.{length, map};
ghost use Rattle.std.specs.List.{list_any};
ghost use Rattle.peg_blame.specs.BlameParser.{IsBlameParserOf};
ghost use Rattle.peg_grammar.specs.GrammarRules.{rules_in};
ghost use Rattle.peg_grammar.specs.Limits.{max_text_bytes};
ghost use Rattle.peg_grammar.specs.Written.{form_of};
ghost use Rattle.peg_semantics.specs.Record.{RuleCall};
ghost use Rattle.peg_semantics.specs.Rules.{Rule};
ghost use Rattle.peg_spacing.specs.Spacing.{has_flag};
ghost use Rattle.peg_tree.specs.Selected.{has_rule};
ghost use Rattle.peg_explain.specs.Names.{AreRests, IsRest, can_be_named, has_failed, is_any, is_end, is_inside};
ghost use Rattle.peg_explain.specs.Names.{outermost_rules, rules_called_at, stands_for};
ghost use Rattle.peg_explain.specs.Namings.{IsNamingAt};

use crate::expected::first_numbers;
use peg_blame::BlameParser;
use peg_grammar::{Expr, Grammar};
use peg_parser::{ParseFault, ParseOptions};
use peg_tree::{Outcome, Parsed, RuleSet};
use std::alloc::{AllocError, Global};

// The most rules that a message looks at.
const MAX_NAMED: usize = 64;

/// The rest of a text, parsed from a rule: the outcome, and the rules that are called at the start of the rest.
#[derive(Drop)]
pub(crate) struct Rest {
    pub(crate) rule: u32,
    pub(crate) outcome: Outcome,
    pub(crate) called: RuleSet,
}

impl Rest {
    ghost use Rattle.std.specs.Prelude.{◌≡◌, ◌==◌, ◌&&◌, not};
    ghost use Rattle.peg_explain.specs.Names.{fails_at_once, has_failed, is_expected_by};
    ghost use Rattle.peg_tree.specs.Selected.{has_rule};

    /// Returns whether the rule doesn't match, and no item failed after the start of the rest.
    pub(crate) fn fails_at_once(&self) -> bool
        ensures { result ≡ fails_at_once self.now }
    {
        has_failed(&self.outcome.result) && self.outcome.far == 0
    }

    // Returns whether an item failed at the start of the rest, and no item failed after it.
    fn expects(&self, item: u32) -> bool
        ensures { result ≡ is_expected_by self.now item }
    {
        self.outcome.far == 0 && is_among(&self.outcome.expected, item)
    }

    // Returns whether the rule fails at once and calls another rule at its start.
    fn has_inside(&self, rule: u32) -> bool
        ensures { result ≡ (fails_at_once self.now && not (self.now.rule == rule) && has_rule self.now.called rule) }
    {
        self.fails_at_once() && self.rule != rule && self.called.contains(rule)
    }
}

// Returns whether a parse failed.
fn has_failed(parsed: &Parsed) -> bool
    ensures { result ≡ has_failed parsed.now }
{
    match parsed {
        Parsed::Failed => true,
        Parsed::Matched { .. } => false,
    }
}

// Returns whether a number is among these.
fn is_among(numbers: &[u32], wanted: u32) -> bool
    ensures { result ≡ list_any (λ number. number == wanted) numbers.now }
{
    numbers.iter().any(|number| *number == wanted)
}

/// Returns whether an item failed at once in the call of a rule with which one of the rests begins.
pub(crate) fn stands_for(rests: &[Rest], rule: u32, item: u32) -> bool
    ensures { result ≡ stands_for rests.now rule item }
{
    rests
        .iter()
        .any(|rest| rest.rule == rule && rest.expects(item))
}

// Returns whether another rule that fails at once calls this one at its start.
fn is_inside(rests: &[Rest], rule: u32) -> bool
    ensures { result ≡ is_inside rests.now rule }
{
    rests.iter().any(|rest| rest.has_inside(rule))
}

/// Returns the outermost rules that fail at once, in ascending order. The only error is a failed allocation.
pub(crate) fn outermost_rules(alloc: Global, rests: &[Rest]) -> Result<Vec<u32>, AllocError>
    ensures rules { IfOk result (λ rules. rules.items ≡ outermost_rules rests.now) }
    ensures few { IfOk result (λ rules. length rules.items ≤ length rests.now) }
{
    let mut rules = Vec::new(alloc);
    'rests: for rest in rests {
        if rest.fails_at_once() && !is_inside(rests, rest.rule) {
            rules.push(rest.rule)?;
        }
    }
    Ok(rules)
}

/// What is known at the position of a message.
#[derive(Clone, Copy)]
pub(crate) struct Naming<'a> {
    pub(crate) blames: &'a BlameParser,
    pub(crate) grammar: &'a Grammar,
    /// The name of the start rule.
    pub(crate) start: &'a str,
    /// Whether each rule is left out as spacing, by number.
    pub(crate) spacing: &'a [bool],
    /// The rules that are called at the position.
    pub(crate) called: &'a RuleSet,
    /// The text from the position on.
    pub(crate) rest: &'a [u8],
    pub(crate) memo: u32,
}

impl Naming<'_> {
    /// Parses the rest of the text from each of the first rules that are called at the position. The only error is a
    /// failed allocation.
    pub(crate) fn rests(&self, alloc: Global) -> Result<Vec<Rest>, ParseFault>
        ensures rests { (rules : List Rule) (text start : List ℕ) (calls : List RuleCall) (at : ℕ)
            → IsNamingAt rules text start calls at self.now
            → IfOk result (λ rests. AreRests rules self.now.spacing.now text start calls at rests.items) }
        ensures few { IfOk result (λ rests. length rests.items ≤ 64) }
        ensures memory { (rules : List Rule) → IsBlameParserOf rules self.now.blames.now
            → rules_in self.now.grammar.now ≡ rules → length self.now.rest.now ≤ max_text_bytes
            → IfErr result (λ why. why ≡ ParseFault.Memory) }
    {
        let rules = self.named_rules(alloc)?;
        self.rests_from(alloc, first_numbers(&rules, MAX_NAMED))
    }

    // Returns the rules that can be named and are called at the position, in ascending order.
    fn named_rules(&self, alloc: Global) -> Result<Vec<u32>, AllocError>
        ensures rules { (rules : List Rule) (text start : List ℕ) (calls : List RuleCall) (at : ℕ)
            → IsNamingAt rules text start calls at self.now
            → IfOk result (λ list. list.items ≡ rules_called_at rules self.now.spacing.now start calls at) }
        ensures within { IfOk result (λ list. All (λ rule. rule < length (rules_in self.now.grammar.now)) list.items) }
    {
        let mut list = Vec::new(alloc);
        'each: for rule in 0..self.grammar.rules() {
            if self.is_candidate(rule) {
                list.push(rule)?;
            }
        }
        Ok(list)
    }

    // Returns whether a rule is called at the position and can be named.
    fn is_candidate(&self, rule: u32) -> bool
        requires { rule < length (rules_in self.now.grammar.now) }
        ensures { result ≡ (has_rule self.now.called.now rule
            && can_be_named (rules_in self.now.grammar.now) self.now.spacing.now self.now.start.now rule) }
    {
        self.called.contains(rule) && self.can_be_named(rule)
    }

    // Returns whether a rule is neither the start nor the end of the text, and isn't left out as spacing.
    fn can_be_named(&self, rule: u32) -> bool
        requires { rule < length (rules_in self.now.grammar.now) }
        ensures { result
            ≡ can_be_named (rules_in self.now.grammar.now) self.now.spacing.now self.now.start.now rule }
    {
        self.grammar.rule_name(rule) != self.start
            && !is_end(self.grammar.body(rule))
            && !is_flagged(self.spacing, rule)
    }

    // Parses the rest of the text from each of these rules.
    fn rests_from(&self, alloc: Global, numbers: &[u32]) -> Result<Vec<Rest>, ParseFault>
        requires { All (λ rule. rule < length (rules_in self.now.grammar.now)) numbers.now }
        ensures from { IfOk result (λ rests. map (λ rest. rest.rule) rests.items ≡ numbers.now) }
        ensures each { (rules : List Rule) (text start : List ℕ) (calls : List RuleCall) (at : ℕ)
            → IsNamingAt rules text start calls at self.now
            → IfOk result (λ rests. All (IsRest rules text at) rests.items) }
        ensures memory { (rules : List Rule) → IsBlameParserOf rules self.now.blames.now
            → rules_in self.now.grammar.now ≡ rules → length self.now.rest.now ≤ max_text_bytes
            → IfErr result (λ why. why ≡ ParseFault.Memory) }
    {
        let mut rests = Vec::new(alloc);
        'numbers: for number in numbers {
            let rest = self.rest_from(alloc, *number)?;
            add_rest(&mut rests, rest)?;
        }
        Ok(rests)
    }

    // Parses the rest of the text from a rule.
    fn rest_from(&self, alloc: Global, rule: u32) -> Result<Rest, ParseFault>
        requires { rule < length (rules_in self.now.grammar.now) }
        ensures from { IfOk result (λ rest. rest.rule ≡ rule) }
        ensures is { (rules : List Rule) (text start : List ℕ) (calls : List RuleCall) (at : ℕ)
            → IsNamingAt rules text start calls at self.now → IfOk result (IsRest rules text at) }
        ensures memory { (rules : List Rule) → IsBlameParserOf rules self.now.blames.now
            → rules_in self.now.grammar.now ≡ rules → length self.now.rest.now ≤ max_text_bytes
            → IfErr result (λ why. why ≡ ParseFault.Memory) }
    {
        let options = ParseOptions {
            start: Some(self.grammar.rule_name(rule)),
            memo: self.memo,
            steps: None,
        };
        let answer = self.blames.blame(alloc, self.rest, &options)?;
        let called = self.blames.called_rules(alloc, self.rest, &options, 0)?;
        Ok(Rest {
            rule,
            outcome: answer.outcome,
            called,
        })
    }
}

/// Returns the flag of the rule with a number, or false if there is no such rule.
pub(crate) fn is_flagged(flags: &[bool], rule: u32) -> bool
    ensures { result ≡ has_flag flags.now rule }
{
    match flags.get(rule as usize) {
        Some(flag) => *flag,
        None => false,
    }
}

// Returns whether an expression is `!.`.
fn is_end(expression: &Expr) -> bool
    ensures { result ≡ is_end (form_of expression.now) }
{
    match expression {
        Expr::Not { part, .. } => is_any(part),
        _ => false,
    }
}

// Returns whether an expression is a dot.
fn is_any(expression: &Expr) -> bool
    ensures { result ≡ is_any (form_of expression.now) }
{
    match expression {
        Expr::Any { .. } => true,
        _ => false,
    }
}

// Adds a rest.
fn add_rest(rests: &mut Vec<Rest>, rest: Rest) -> Result<(), AllocError>
    ensures { OnOk result (rests.new.items ≡ rests.old.items ++ rest ∷ []) }
{
    rests.push(rest)?;
    Ok(())
}
