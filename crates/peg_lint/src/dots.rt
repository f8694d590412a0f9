//! Dots at the ends of rules.
ghost use Rattle.std.specs.Prelude.{◌≡◌, ◌≢◌, ◌<◌, ◌↔◌, Some, length, map, option_map, IfNone, IfSome, IsTrue, OnOk};
ghost use Rattle.peg_bytes.specs.Extent.{Extent, between, extent};
ghost use Rattle.peg_grammar.specs.GrammarRules.{rules_in};
ghost use Rattle.peg_grammar.specs.Written.{form_of};
ghost use Rattle.peg_semantics.specs.Form.{Any, Forms, Seq, forms};
ghost use Rattle.peg_lint.specs.FileWarnings.{EndInDot, EndsInDot, IsLastAlternative, IsPredicateOrDot};
ghost use Rattle.peg_lint.specs.Habits.{EndsRule};
ghost use Rattle.peg_lint.specs.Linting.{AddsIn, FindsDot};

use crate::expressions::span_of;
use crate::habits::has_closing;
use crate::repeats::alternative_at;
use crate::{Warning, WarningKind};
use peg_bytes::Span;
use peg_grammar::{Expr, Grammar};
use std::alloc::AllocError;

// Returns the last alternative of a choice, and any other expression as it is.
fn last_alternative(expr: &Expr) -> &Expr
    ensures { IsLastAlternative (form_of expr.now) (form_of result.now) }
{
    match expr {
        Expr::Choice { first, rest, .. } => alternative_at(first, rest, rest.len()),
        _ => expr,
    }
}

// Returns whether a dot after an item is the usual way to read a byte, and no habit: after a predicate or a dot.
fn is_exempt(expr: &Expr) -> bool
    ensures { IsTrue result ↔ IsPredicateOrDot (form_of expr.now) }
{
    match expr {
        Expr::Any { .. } | Expr::And { .. } | Expr::Not { .. } => true,
        Expr::Literal { .. }
        | Expr::Class { .. }
        | Expr::Name { .. }
        | Expr::Seq { .. }
        | Expr::Choice { .. }
        | Expr::Optional { .. }
        | Expr::Star { .. }
        | Expr::Plus { .. }
        | Expr::Counted { .. } => false,
    }
}

// Returns the span of a dot.
fn dot_span(expr: &Expr) -> Option<Span>
    ensures some { IfSome result (λ span. form_of expr.now ≡ Any (extent span)) }
    ensures none { IfNone result ((span : Extent) → form_of expr.now ≢ Any span) }
{
    match expr {
        Expr::Any { span } => Some(*span),
        Expr::Literal { .. }
        | Expr::Class { .. }
        | Expr::Name { .. }
        | Expr::Seq { .. }
        | Expr::Choice { .. }
        | Expr::Optional { .. }
        | Expr::Star { .. }
        | Expr::Plus { .. }
        | Expr::Counted { .. }
        | Expr::And { .. }
        | Expr::Not { .. } => None,
    }
}

// Returns the items of a sequence.
fn items_of(expr: &Expr) -> Option<&[Expr]>
    ensures some { IfSome result (λ items. (whole : Extent)
        × (form_of expr.now ≡ Seq (forms (map form_of items.now)) whole)) }
    ensures none { IfNone result ((items : Forms) (whole : Extent) → form_of expr.now ≢ Seq items whole) }
{
    match expr {
        Expr::Seq { items, .. } => Some(items),
        Expr::Literal { .. }
        | Expr::Class { .. }
        | Expr::Any { .. }
        | Expr::Name { .. }
        | Expr::Choice { .. }
        | Expr::Optional { .. }
        | Expr::Star { .. }
        | Expr::Plus { .. }
        | Expr::Counted { .. }
        | Expr::And { .. }
        | Expr::Not { .. } => None,
    }
}

// Returns the span of the dot with which items end, if it comes after another item that isn't exempt.
fn last_dot(items: &[Expr]) -> Option<Span>
    ensures some { IfSome result (λ span. EndInDot (forms (map form_of items.now)) (extent span)) }
    ensures every { (span : Extent) → EndInDot (forms (map form_of items.now)) span
        → option_map extent result ≡ Some span }
{
    if items.len() < 2 {
        return None;
    }
    let last = items.len() - 1;
    if is_exempt(&items[last - 1]) {
        return None;
    }
    dot_span(&items[last])
}

// Returns the span of the dot with which an expression ends, if it comes after another item that isn't exempt.
fn dot_at_end(expr: &Expr) -> Option<Span>
    ensures some { IfSome result (λ span. EndsInDot (form_of expr.now) (extent span)) }
    ensures every { (span : Extent) → EndsInDot (form_of expr.now) span → option_map extent result ≡ Some span }
{
    let items = items_of(last_alternative(expr))?;
    let span = last_dot(items)?;
    if span.end == span_of(expr).end {
        Some(span)
    } else {
        None
    }
}

// Returns whether a file has no closing parenthesis from an offset to the next rule, outside comments.
fn ends_rule(file: &[u8], end: u32, next: u32) -> bool
    ensures { IsTrue result ↔ EndsRule file.now (between end next) }
{
    match file.get(end as usize..next as usize) {
        Some(text) => !has_closing(text),
        None => false,
    }
}

/// Adds a warning if the expression of a rule ends in a dot after an item other than a predicate or a dot, and another
/// rule comes next.
#[inline(never)]
pub(crate) fn add_dot_at_end(
    file: &[u8],
    grammar: &Grammar,
    rule: u32,
    found: &mut Vec<Warning>,
) -> Result<(), AllocError>
    requires { rule < length (rules_in grammar.now) }
    ensures { OnOk result (AddsIn file.now (rules_in grammar.now) (FindsDot file.now (rules_in grammar.now) rule)
        found.old.items found.new.items) }
{
    let rules = grammar.rules();
    if rule + 1 == rules {
        return Ok(());
    }
    let Some(span) = dot_at_end(grammar.body(rule)) else {
        return Ok(());
    };
    if !ends_rule(file, span.end, grammar.name_span(rule + 1).start) {
        return Ok(());
    }
    found.push(Warning {
        kind: WarningKind::AnyAtEnd,
        rule,
        span,
        by: None,
    })?;
    Ok(())
}
