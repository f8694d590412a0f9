//! The warnings about a grammar.
ghost use Rattle.std.specs.Prelude.{◌≡◌, ◌<◌, All, length, map, IfOk, OnOk};
ghost use Rattle.peg_check.specs.Cans.{can_of};
ghost use Rattle.peg_check.specs.Exact.{cans_of};
ghost use Rattle.peg_core.specs.CoreParts.{AreCoreFormsOf};
ghost use Rattle.peg_grammar.specs.GrammarRules.{rules_in};
ghost use Rattle.peg_semantics.specs.RuleOutcomes.{AreAbstractOutcomes};
ghost use Rattle.peg_lint.specs.Linting.{Adds, FindsRule, FindsRules, FindsUnused, Keeps, KeepsTrue};
ghost use Rattle.peg_lint.specs.Warnings.{AreDistinct, FindsDecided, IsInWrittenOrder, IsTrueWarning};

use crate::depth::has_shallow_rules;
use crate::edge_table::edge_table;
use crate::edge_visit::lint_edges;
use crate::findings::add_never_matches;
use crate::order::sort_unique;
use crate::reach::reached_from;
use crate::visit::lint_expression;
use crate::{Warning, WarningKind};
use peg_check::{Can, Table, table_of};
use peg_core::Core;
use peg_grammar::Grammar;
use std::alloc::{AllocError, Global};

/// Returns the warnings about a grammar whose texts are parsed from a start rule. The core forms are those of the
/// grammar. Each warning is true of Ford's recognition relation on the grammar as written, for every text and every
/// position (Ford 2004, section 3.3). In a grammar that is not well-formed an expression may have no record; then a
/// warning about it says nothing.
///
/// No warning is missing of the kinds that Ford's abstract outcomes or the names in expressions decide: `UnusedRule`,
/// `NeverMatches`, `NeverTried`, `AlwaysFails` and `NoEffect`.
///
/// No two warnings are equal. They are sorted by the start of their spans, those with the same start by kind, and those
/// of the same kind by the end of their spans.
///
/// Takes memory linear in the grammar. Takes time linear in the grammar, apart from hashing and sorting. An expression is
/// also read once for each choice and sequence around it, for the digests of alternatives and for what it begins with.
/// The only error is a failed allocation.
///
/// # Example
///
/// ```
/// let grammar = Grammar::new(alloc, read(alloc, b"S <- 'a'* / 'b'")?)?;
/// let found = warnings(alloc, &grammar, &desugar(alloc, &grammar)?, 0)?;
/// assert_eq!(found[0].kind, WarningKind::NeverTried);
/// ```
pub fn warnings(
    alloc: Global,
    grammar: &Grammar,
    core: &Core,
    start: u32,
) -> Result<Vec<Warning>, AllocError>
    requires core { AreCoreFormsOf (rules_in grammar.now) core.now }
    requires start { start < length (rules_in grammar.now) }
    ensures true_warnings { IfOk result (λ found. All (IsTrueWarning (rules_in grammar.now) start) found.items) }
    ensures decided { IfOk result (λ found. FindsDecided (rules_in grammar.now) start found.items) }
    ensures in_order { IfOk result (λ found. IsInWrittenOrder found.items) }
    ensures distinct { IfOk result (λ found. AreDistinct found.items) }
{
    let table = table_of(alloc, core)?;
    let outcomes = rule_outcomes(alloc, core, &table)?;
    let mut found = Vec::new(alloc);
    lint_rule_edges(alloc, grammar, &mut found)?;
    lint_rules(alloc, grammar, &outcomes, &mut found)?;
    add_unused_rules(alloc, grammar, start, &mut found)?;
    sort_unique(&mut found)?;
    Ok(found)
}

// Returns the outcomes of each rule's body, from a table with an entry for each core form.
fn rule_outcomes(alloc: Global, core: &Core, table: &Table) -> Result<Vec<Can>, AllocError>
    requires { length table.now ≡ length core.now.forms }
    ensures { IfOk result (λ outcomes. map can_of outcomes.items ≡ cans_of core.now.bodies table.now) }
{
    let mut outcomes = Vec::new(alloc);
    'bodies: for rule in 0..core.rules() {
        outcomes.push(table.of(core.body(rule)))?;
    }
    Ok(outcomes)
}

// Adds the warnings that the edges of expressions show, if none nests too deep.
fn lint_rule_edges(
    alloc: Global,
    grammar: &Grammar,
    found: &mut Vec<Warning>,
) -> Result<(), AllocError>
    ensures { OnOk result (KeepsTrue (rules_in grammar.now) found.old.items found.new.items) }
{
    if !has_shallow_rules(grammar) {
        return Ok(());
    }
    let table = edge_table(alloc, grammar)?;
    'rules: for rule in 0..grammar.rules() {
        lint_edges(grammar, &table, rule, grammar.body(rule), found)?;
    }
    Ok(())
}

// Adds the warnings about a rule's expression.
fn lint_rule(
    alloc: Global,
    grammar: &Grammar,
    outcomes: &[Can],
    rule: u32,
    found: &mut Vec<Warning>,
) -> Result<(), AllocError>
    requires outcomes { AreAbstractOutcomes (rules_in grammar.now) (map can_of outcomes.now) }
    requires within { rule < length (rules_in grammar.now) }
    ensures { OnOk result (Adds (rules_in grammar.now) (FindsRule (rules_in grammar.now) rule)
        found.old.items found.new.items) }
{
    let body = grammar.body(rule);
    let can = lint_expression(alloc, grammar, outcomes, rule, body, found)?;
    add_never_matches(rule, body, can, found)
}

// Adds the warnings about the expressions of all rules.
fn lint_rules(
    alloc: Global,
    grammar: &Grammar,
    outcomes: &[Can],
    found: &mut Vec<Warning>,
) -> Result<(), AllocError>
    requires outcomes { AreAbstractOutcomes (rules_in grammar.now) (map can_of outcomes.now) }
    ensures { OnOk result (Adds (rules_in grammar.now) (FindsRules (rules_in grammar.now))
        found.old.items found.new.items) }
{
    'rules: for rule in 0..grammar.rules() {
        lint_rule(alloc, grammar, outcomes, rule, found)?;
    }
    Ok(())
}

// Adds a warning for each rule that the start rule does not reach.
fn add_unused_rules(
    alloc: Global,
    grammar: &Grammar,
    start: u32,
    found: &mut Vec<Warning>,
) -> Result<(), AllocError>
    requires start { start < length (rules_in grammar.now) }
    requires sound { All (IsTrueWarning (rules_in grammar.now) start) found.old.items }
    ensures true_warnings { OnOk result (All (IsTrueWarning (rules_in grammar.now) start) found.new.items) }
    ensures kept { OnOk result (Keeps found.old.items found.new.items) }
    ensures unused { OnOk result (FindsUnused (rules_in grammar.now) start found.new.items) }
{
    let marks = reached_from(alloc, grammar, start)?;
    'rules: for rule in 0..grammar.rules() {
        if !marks[rule as usize] {
            found.push(Warning {
                kind: WarningKind::UnusedRule,
                rule,
                span: grammar.name_span(rule),
                by: None,
            })?;
        }
    }
    Ok(())
}
