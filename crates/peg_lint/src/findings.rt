//! Warnings about single expressions.
ghost use Rattle.std.specs.Prelude.{◌↔◌, ℕ, IsTrue, List, None, OnOk};
ghost use Rattle.peg_check.specs.Cans.{can_of};
ghost use Rattle.peg_grammar.specs.Written.{form_of};
ghost use Rattle.peg_semantics.specs.Form.{Form};
ghost use Rattle.peg_semantics.specs.RuleOutcomes.{IsAbstractOutcome};
ghost use Rattle.peg_semantics.specs.Rules.{Rule};
ghost use Rattle.peg_lint.specs.Excluded.{CannotMatch};
ghost use Rattle.peg_lint.specs.Linting.{Adds, FindsExcluded, FindsIf, FindsOperator, IsOperatorOn};
ghost use Rattle.peg_lint.specs.Warnings.{IsClassOrPredicate, IsFailingPredicate, IsWithoutUse, IsPartOfRule, IsPlaced, Says};
ghost use Rattle.peg_lint.specs.Warnings.{extent_of};

use crate::expressions::span_of;
use crate::never::{excluded_outcomes_never_happen, never_fails, never_matches};
use crate::{Warning, WarningKind};
use peg_check::Can;
use peg_grammar::Expr;
use std::alloc::AllocError;

// Adds a warning about an expression if what it says holds.
fn add_if_so(
    holds: bool,
    kind: WarningKind,
    rule: u32,
    expr: &Expr,
    found: &mut Vec<Warning>,
) -> Result<(), AllocError>
    ensures { OnOk result ((rules : List Rule)
        → (IsTrue holds → (start : ℕ) → Says kind rules start rule (extent_of (form_of expr.now)) None)
        → Adds rules (FindsIf holds kind rule (extent_of (form_of expr.now))) found.old.items found.new.items) }
{
    if holds {
        found.push(Warning {
            kind,
            rule,
            span: span_of(expr),
            by: None,
        })?;
    }
    Ok(())
}

// Returns whether a failure of the expression has another kind of warning, or none: a predicate or a class.
fn is_exempt(expr: &Expr) -> bool
    ensures { IsTrue result ↔ IsClassOrPredicate (form_of expr.now) }
{
    match expr {
        Expr::Class { .. } | Expr::And { .. } | Expr::Not { .. } => true,
        Expr::Literal { .. }
        | Expr::Any { .. }
        | Expr::Name { .. }
        | Expr::Seq { .. }
        | Expr::Choice { .. }
        | Expr::Optional { .. }
        | Expr::Star { .. }
        | Expr::Plus { .. }
        | Expr::Counted { .. } => false,
    }
}

// Returns whether an expression with these outcomes never matches, and is no predicate and no class.
fn is_excluded(expr: &Expr, can: Can) -> bool
    ensures { (rules : List Rule) (e : Form) → IsAbstractOutcome rules e (can_of can)
        → (IsTrue result ↔ ((¬ IsClassOrPredicate (form_of expr.now)) × CannotMatch rules e)) }
{
    if is_exempt(expr) {
        return false;
    }
    never_matches(can)
}

/// Adds a warning if an expression with these outcomes never matches, except for a predicate or a class.
#[inline(never)]
pub(crate) fn add_never_matches(
    rule: u32,
    expr: &Expr,
    can: Can,
    found: &mut Vec<Warning>,
) -> Result<(), AllocError>
    ensures { OnOk result ((rules : List Rule) → IsPartOfRule rules rule (form_of expr.now)
        → IsPlaced rules rule (form_of expr.now) → IsAbstractOutcome rules (form_of expr.now) (can_of can)
        → Adds rules (FindsExcluded rules rule (form_of expr.now)) found.old.items found.new.items) }
{
    excluded_outcomes_never_happen();
    let is_excluded = is_excluded(expr, can);
    add_if_so(is_excluded, WarningKind::NeverMatches, rule, expr, found)
}

// Returns whether a predicate whose part has these outcomes always fails.
fn is_failing_predicate(expr: &Expr, part: Can) -> bool
    ensures { (rules : List Rule) (e : Form) → IsOperatorOn (form_of expr.now) e
        → IsAbstractOutcome rules e (can_of part) → (IsTrue result ↔ IsFailingPredicate rules (form_of expr.now)) }
{
    match expr {
        Expr::And { .. } => never_matches(part),
        Expr::Not { .. } => never_fails(part),
        Expr::Literal { .. }
        | Expr::Class { .. }
        | Expr::Any { .. }
        | Expr::Name { .. }
        | Expr::Seq { .. }
        | Expr::Choice { .. }
        | Expr::Optional { .. }
        | Expr::Star { .. }
        | Expr::Plus { .. }
        | Expr::Counted { .. } => false,
    }
}

// Returns whether an operator whose part has these outcomes has no effect.
fn is_without_use(expr: &Expr, part: Can) -> bool
    ensures { (rules : List Rule) (e : Form) → IsOperatorOn (form_of expr.now) e
        → IsAbstractOutcome rules e (can_of part) → (IsTrue result ↔ IsWithoutUse rules (form_of expr.now)) }
{
    let none_matches = never_matches(part);
    let none_fails = never_fails(part);
    match expr {
        Expr::Optional { .. } => none_matches || none_fails,
        Expr::Star { .. } => none_matches,
        Expr::And { .. } => none_fails && !none_matches,
        Expr::Not { .. } => none_matches && !none_fails,
        Expr::Literal { .. }
        | Expr::Class { .. }
        | Expr::Any { .. }
        | Expr::Name { .. }
        | Expr::Seq { .. }
        | Expr::Choice { .. }
        | Expr::Plus { .. }
        | Expr::Counted { .. } => false,
    }
}

/// Adds a warning if an operator whose part has these outcomes always fails or has no effect.
#[inline(never)]
pub(crate) fn add_operator(
    rule: u32,
    expr: &Expr,
    part: Can,
    found: &mut Vec<Warning>,
) -> Result<(), AllocError>
    ensures { OnOk result ((rules : List Rule) (e : Form) → IsPartOfRule rules rule (form_of expr.now)
        → IsOperatorOn (form_of expr.now) e → IsAbstractOutcome rules e (can_of part)
        → Adds rules (FindsOperator rules rule (form_of expr.now)) found.old.items found.new.items) }
{
    excluded_outcomes_never_happen();
    let fails = is_failing_predicate(expr, part);
    add_if_so(fails, WarningKind::AlwaysFails, rule, expr, found)?;
    let is_without_use = is_without_use(expr, part);
    add_if_so(is_without_use, WarningKind::NoEffect, rule, expr, found)
}
