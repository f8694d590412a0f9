//! Loud copies of expressions.
ghost use Rattle.std.specs.Prelude.{◌≡◌, IfOk, map};
ghost use Rattle.peg_bytes.specs.Extent.{extent};
ghost use Rattle.peg_diagnostics.specs.Diagnostic.{form_extent, loud};
ghost use Rattle.peg_grammar.specs.Written.{form_of};

use crate::builders::{add, choice, name, or_empty_class, seq, with_part};
use crate::quiet_copies::quiet_expression;
use peg_bytes::Span;
use peg_grammar::Expr;
use std::alloc::{AllocError, Global};

/// Returns the span of an expression in the grammar file.
pub(crate) fn span_of(expr: &Expr) -> Span
    ensures { extent result ≡ form_extent (form_of expr.now) }
{
    match expr {
        Expr::Literal { span, .. }
        | Expr::Class { span, .. }
        | Expr::Any { span }
        | Expr::Name { span, .. }
        | Expr::Seq { span, .. }
        | Expr::Choice { span, .. }
        | Expr::Optional { span, .. }
        | Expr::Star { span, .. }
        | Expr::Plus { span, .. }
        | Expr::Counted { span, .. }
        | Expr::And { span, .. }
        | Expr::Not { span, .. } => *span,
    }
}

/// Returns the expression with an empty class added to each terminal and to each predicate. Predicates become quiet.
/// The only error is a failed allocation. Recurses as deep as expressions nest.
#[cycle(loud)]
pub(crate) fn loud_expression(alloc: Global, expression: &Expr) -> Result<Box<Expr>, AllocError>
    ensures { IfOk result (λ e. form_of e.value ≡ loud (form_of expression.now)) }
{
    match expression {
        Expr::Literal { span, .. }
        | Expr::Class { span, .. }
        | Expr::Any { span }
        | Expr::And { span, .. }
        | Expr::Not { span, .. } => {
            or_empty_class(alloc, quiet_expression(alloc, expression)?, *span)
        }
        Expr::Name { name: called, span } => name(alloc, called, *span),
        Expr::Seq { items, span } => seq(alloc, loud_items(alloc, items)?, *span),
        Expr::Choice { first, rest, span } => {
            let first = loud_expression(alloc, first)?;
            choice(alloc, first, loud_items(alloc, rest)?, *span)
        }
        Expr::Optional { part, .. }
        | Expr::Star { part, .. }
        | Expr::Plus { part, .. }
        | Expr::Counted { part, .. } => {
            let copy = loud_expression(alloc, part)?;
            with_part(alloc, expression, copy)
        }
    }
}

#[cycle(loud)]
#[inline(never)]
fn loud_items(alloc: Global, items: &[Expr]) -> Result<Vec<Expr>, AllocError>
    ensures { IfOk result (λ copies. map form_of copies.items ≡ map (λ item. loud (form_of item)) items.now) }
{
    let mut copies = Vec::new(alloc);
    for item in items {
        let copy = loud_expression(alloc, item)?;
        add(&mut copies, copy)?;
    }
    Ok(copies)
}
