//! The walk over the expressions of a rule, for the warnings about the file's bytes.
ghost use Rattle.std.specs.Prelude.{List, map, OnOk};
ghost use Rattle.peg_grammar.specs.Written.{form_of};
ghost use Rattle.peg_semantics.specs.Form.{forms};
ghost use Rattle.peg_semantics.specs.Rules.{Rule};
ghost use Rattle.peg_semantics.specs.WellFormed.{below_all, subexpressions};
ghost use Rattle.peg_lint.specs.Linting.{AddsIn, AllArePartsOfRule, ArePartsOfRule, FindsText, FindsTexts};
ghost use Rattle.peg_lint.specs.Warnings.{IsPartOfRule};

use crate::Warning;
use crate::classes::{add_of_class, add_of_literal};
use crate::empty::add_empty_alternatives;
use peg_grammar::Expr;
use std::alloc::AllocError;

// Adds the warnings about the text of an expression, without those about its parts.
#[inline(never)]
fn add_of_text(
    file: &[u8],
    rule: u32,
    expr: &Expr,
    found: &mut Vec<Warning>,
) -> Result<(), AllocError>
    ensures { OnOk result ((rules : List Rule) → IsPartOfRule rules rule (form_of expr.now)
        → AddsIn file.now rules (λ now. FindsText file.now rule now (form_of expr.now))
        found.old.items found.new.items) }
{
    match expr {
        Expr::Class { span, .. } => add_of_class(file, rule, *span, found),
        Expr::Literal { span, .. } => add_of_literal(file, rule, *span, found),
        Expr::Choice { first, rest, .. } => add_empty_alternatives(rule, first, rest, found),
        Expr::Any { .. }
        | Expr::Name { .. }
        | Expr::Seq { .. }
        | Expr::Optional { .. }
        | Expr::Star { .. }
        | Expr::Plus { .. }
        | Expr::Counted { .. }
        | Expr::And { .. }
        | Expr::Not { .. } => Ok(()),
    }
}

/// Adds the warnings about the text of an expression of a rule and of its parts. Recurses as deep as expressions nest.
/// Takes time linear in the text.
#[cycle(file)]
pub(crate) fn lint_text(
    file: &[u8],
    rule: u32,
    expr: &Expr,
    found: &mut Vec<Warning>,
) -> Result<(), AllocError>
    ensures { OnOk result ((rules : List Rule) → ArePartsOfRule rules rule (form_of expr.now)
        → AddsIn file.now rules (FindsTexts file.now rule (subexpressions (form_of expr.now)))
        found.old.items found.new.items) }
{
    add_of_text(file, rule, expr, found)?;
    match expr {
        Expr::Literal { .. } | Expr::Class { .. } | Expr::Any { .. } | Expr::Name { .. } => Ok(()),
        Expr::Seq { items, .. } => lint_texts(file, rule, items, found),
        Expr::Choice { first, rest, .. } => {
            lint_text(file, rule, first, found)?;
            lint_texts(file, rule, rest, found)
        }
        Expr::Optional { part, .. }
        | Expr::Star { part, .. }
        | Expr::Plus { part, .. }
        | Expr::Counted { part, .. }
        | Expr::And { part, .. }
        | Expr::Not { part, .. } => lint_text(file, rule, part, found),
    }
}

// Adds the warnings about the texts of items of a sequence or alternatives of a choice.
#[cycle(file)]
fn lint_texts(
    file: &[u8],
    rule: u32,
    items: &[Expr],
    found: &mut Vec<Warning>,
) -> Result<(), AllocError>
    ensures { OnOk result ((rules : List Rule) → AllArePartsOfRule rules rule (forms (map form_of items.now))
        → AddsIn file.now rules (FindsTexts file.now rule (below_all (forms (map form_of items.now))))
        found.old.items found.new.items) }
{
    for item in items {
        lint_text(file, rule, item, found)?;
    }
    Ok(())
}
