//! The walk over the expressions of a rule.
ghost use Rattle.std.specs.Prelude.{◌≡◌, length, map, IfOk, OnOk};
ghost use Rattle.peg_check.specs.Cans.{can_of};
ghost use Rattle.peg_grammar.specs.GrammarRules.{rules_in};
ghost use Rattle.peg_grammar.specs.Written.{form_of};
ghost use Rattle.peg_semantics.specs.Form.{forms};
ghost use Rattle.peg_semantics.specs.RuleOutcomes.{AreAbstractOutcomes, IsAbstractOutcome};
ghost use Rattle.peg_semantics.specs.WellFormed.{subexpressions};
ghost use Rattle.peg_lint.specs.Linting.{Adds, AllArePartsOfRule, AreAllPlaced, ArePartsOfRule, FindsBelow, FindsOfAll};
ghost use Rattle.peg_lint.specs.Outcomes.{AreOutcomes};

use crate::Warning;
use crate::alternatives::add_never_tried;
use crate::expressions::{literal_outcome, name_outcome, operator_outcome};
use crate::findings::{add_never_matches, add_operator};
use crate::outcomes::{all_of, any_of, class, or_else, some_bytes};
use crate::repeats::add_same_alternatives;
use peg_check::Can;
use peg_grammar::{Expr, Grammar};
use std::alloc::{AllocError, Global};

/// Adds the warnings about an expression of a rule and its parts, and returns the outcomes of the expression. The
/// outcomes passed are those of each rule. Recurses as deep as expressions nest. Takes time linear in the expression,
/// apart from the digests of alternatives, which take linear time for each choice around an expression.
#[cycle(lint)]
pub(crate) fn lint_expression(
    alloc: Global,
    grammar: &Grammar,
    outcomes: &[Can],
    rule: u32,
    expr: &Expr,
    found: &mut Vec<Warning>,
) -> Result<Can, AllocError>
    requires outcomes { AreAbstractOutcomes (rules_in grammar.now) (map can_of outcomes.now) }
    requires parts { ArePartsOfRule (rules_in grammar.now) rule (form_of expr.now) }
    ensures outcome { IfOk result (λ can.
        IsAbstractOutcome (rules_in grammar.now) (form_of expr.now) (can_of can)) }
    ensures adds { OnOk result (Adds (rules_in grammar.now)
        (FindsOfAll (rules_in grammar.now) rule (subexpressions (form_of expr.now))) found.old.items found.new.items) }
{
    match expr {
        Expr::Literal { bytes, .. } => Ok(literal_outcome(bytes)),
        Expr::Class { set, .. } => Ok(class(*set)),
        Expr::Any { .. } => Ok(some_bytes()),
        Expr::Name { name, .. } => Ok(name_outcome(grammar, outcomes, name.as_str())),
        Expr::Seq { items, .. } => {
            let cans = lint_all(alloc, grammar, outcomes, rule, items, found)?;
            Ok(all_of(&cans))
        }
        Expr::Choice { first, rest, .. } => {
            let can = lint_expression(alloc, grammar, outcomes, rule, first, found)?;
            add_never_matches(rule, first, can, found)?;
            let cans = lint_all(alloc, grammar, outcomes, rule, rest, found)?;
            add_same_alternatives(alloc, rule, first, rest, found)?;
            add_never_tried(rule, first, rest, can, &cans, found)?;
            Ok(or_else(can, any_of(&cans)))
        }
        Expr::Optional { part, .. }
        | Expr::Star { part, .. }
        | Expr::Plus { part, .. }
        | Expr::Counted { part, .. }
        | Expr::And { part, .. }
        | Expr::Not { part, .. } => {
            let can = lint_expression(alloc, grammar, outcomes, rule, part, found)?;
            add_operator(rule, expr, can, found)?;
            Ok(operator_outcome(expr, can))
        }
    }
}

// Adds the warnings about items of a sequence or alternatives of a choice, and returns their outcomes.
#[cycle(lint)]
fn lint_all(
    alloc: Global,
    grammar: &Grammar,
    outcomes: &[Can],
    rule: u32,
    items: &[Expr],
    found: &mut Vec<Warning>,
) -> Result<Vec<Can>, AllocError>
    requires outcomes { AreAbstractOutcomes (rules_in grammar.now) (map can_of outcomes.now) }
    requires parts { AllArePartsOfRule (rules_in grammar.now) rule (forms (map form_of items.now)) }
    requires placed { AreAllPlaced (rules_in grammar.now) rule (forms (map form_of items.now)) }
    ensures outcomes { IfOk result (λ cans.
        AreOutcomes (rules_in grammar.now) (forms (map form_of items.now)) (map can_of cans.items)) }
    ensures count { IfOk result (λ cans. length cans.items ≡ length items.now) }
    ensures adds { OnOk result (Adds (rules_in grammar.now)
        (FindsBelow (rules_in grammar.now) rule (forms (map form_of items.now))) found.old.items found.new.items) }
{
    let mut cans = Vec::new(alloc);
    for item in items {
        let can = lint_expression(alloc, grammar, outcomes, rule, item, found)?;
        add_never_matches(rule, item, can, found)?;
        cans.push(can)?;
    }
    Ok(cans)
}
