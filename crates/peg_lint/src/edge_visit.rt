//! The walk over the expressions of a rule, for the warnings that the edges of expressions show.
ghost use Rattle.std.specs.Prelude.{◌≡◌, ℕ, length, map, OnOk};
ghost use Rattle.peg_grammar.specs.GrammarRules.{rules_in};
ghost use Rattle.peg_grammar.specs.Written.{form_of};
ghost use Rattle.peg_semantics.specs.Form.{forms};
ghost use Rattle.peg_lint.specs.Known.{AreKnown};
ghost use Rattle.peg_lint.specs.Linting.{AllArePartsOfRule, ArePartsOfRule, KeepsTrue};
ghost use Rattle.peg_lint.specs.Warnings.{IsPartOfRule};

use crate::Warning;
use crate::edges::Edges;
use crate::shadows::add_shadowed;
use crate::stops::add_never_stops;
use peg_grammar::{Expr, Grammar};
use std::alloc::AllocError;

// Adds the warnings that the edges of an expression's parts show, without those about what is in the parts.
#[inline(never)]
fn add_of_edges(
    grammar: &Grammar,
    table: &[Edges],
    rule: u32,
    expr: &Expr,
    found: &mut Vec<Warning>,
) -> Result<(), AllocError>
    requires { length table.now ≡ length (rules_in grammar.now) }
    ensures { OnOk result ((n : ℕ) → AreKnown (rules_in grammar.now) n table.now
        → IsPartOfRule (rules_in grammar.now) rule (form_of expr.now)
        → KeepsTrue (rules_in grammar.now) found.old.items found.new.items) }
{
    match expr {
        Expr::Seq { items, .. } => add_never_stops(grammar, table, rule, items, found),
        Expr::Choice { first, rest, .. } => {
            add_shadowed(grammar, table, rule, first, rest, found)
        }
        Expr::Literal { .. }
        | Expr::Class { .. }
        | Expr::Any { .. }
        | Expr::Name { .. }
        | Expr::Optional { .. }
        | Expr::Star { .. }
        | Expr::Plus { .. }
        | Expr::Counted { .. }
        | Expr::And { .. }
        | Expr::Not { .. } => Ok(()),
    }
}

/// Adds the warnings that the edges of expressions show, about an expression of a rule and its parts. The table has what
/// is known of each rule. Recurses as deep as expressions nest. Reads an expression once for each sequence and choice
/// around it.
#[cycle(visit)]
pub(crate) fn lint_edges(
    grammar: &Grammar,
    table: &[Edges],
    rule: u32,
    expr: &Expr,
    found: &mut Vec<Warning>,
) -> Result<(), AllocError>
    requires { length table.now ≡ length (rules_in grammar.now) }
    ensures { OnOk result ((n : ℕ) → AreKnown (rules_in grammar.now) n table.now
        → ArePartsOfRule (rules_in grammar.now) rule (form_of expr.now)
        → KeepsTrue (rules_in grammar.now) found.old.items found.new.items) }
{
    add_of_edges(grammar, table, rule, expr, found)?;
    match expr {
        Expr::Literal { .. } | Expr::Class { .. } | Expr::Any { .. } | Expr::Name { .. } => Ok(()),
        Expr::Seq { items, .. } => lint_all_edges(grammar, table, rule, items, found),
        Expr::Choice { first, rest, .. } => {
            lint_edges(grammar, table, rule, first, found)?;
            lint_all_edges(grammar, table, rule, rest, found)
        }
        Expr::Optional { part, .. }
        | Expr::Star { part, .. }
        | Expr::Plus { part, .. }
        | Expr::Counted { part, .. }
        | Expr::And { part, .. }
        | Expr::Not { part, .. } => lint_edges(grammar, table, rule, part, found),
    }
}

// Adds these warnings about items of a sequence or alternatives of a choice.
#[cycle(visit)]
fn lint_all_edges(
    grammar: &Grammar,
    table: &[Edges],
    rule: u32,
    items: &[Expr],
    found: &mut Vec<Warning>,
) -> Result<(), AllocError>
    requires { length table.now ≡ length (rules_in grammar.now) }
    ensures { OnOk result ((n : ℕ) → AreKnown (rules_in grammar.now) n table.now
        → AllArePartsOfRule (rules_in grammar.now) rule (forms (map form_of items.now))
        → KeepsTrue (rules_in grammar.now) found.old.items found.new.items) }
{
    for item in items {
        lint_edges(grammar, table, rule, item, found)?;
    }
    Ok(())
}
