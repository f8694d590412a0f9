//! Quiet copies of expressions.
ghost use Rattle.std.specs.Prelude.{◌≡◌, IfOk, map, string_bytes};
ghost use Rattle.peg_bytes.specs.Extent.{extent};
ghost use Rattle.peg_diagnostics.specs.Diagnostic.{quiet, quiet_name};
ghost use Rattle.peg_grammar.specs.Written.{form_of};
ghost use Rattle.peg_semantics.specs.Form.{Name};

use crate::builders::{add, any, choice, class, literal, name, seq, with_part};
use peg_bytes::Span;
use peg_grammar::Expr;
use std::alloc::{AllocError, Global};

/// Returns the name of the quiet copy of a rule. The only error is a failed allocation.
pub(crate) fn name_of_copy(alloc: Global, name: &str) -> Result<String, AllocError>
    ensures { IfOk result (λ copy. string_bytes copy ≡ quiet_name name.now) }
{
    let mut copy = String::from_str(alloc, name)?;
    copy.push('!')?;
    Ok(copy)
}

// Returns the call of the quiet copy of a rule.
#[inline(never)]
fn quiet_call(alloc: Global, called: &str, span: Span) -> Result<Box<Expr>, AllocError>
    ensures { IfOk result (λ e. form_of e.value ≡ Name (quiet_name called.now) (extent span)) }
{
    let copy = name_of_copy(alloc, called)?;
    name(alloc, &copy, span)
}

/// Returns the expression with each name replaced by that of the quiet copy. The only error is a failed allocation.
/// Recurses as deep as expressions nest.
#[cycle(quiet)]
pub(crate) fn quiet_expression(alloc: Global, expression: &Expr) -> Result<Box<Expr>, AllocError>
    ensures { IfOk result (λ e. form_of e.value ≡ quiet (form_of expression.now)) }
{
    match expression {
        Expr::Literal { bytes, span } => literal(alloc, bytes, *span),
        Expr::Class { set, span } => class(alloc, *set, *span),
        Expr::Any { span } => any(alloc, *span),
        Expr::Name { name: called, span } => quiet_call(alloc, called, *span),
        Expr::Seq { items, span } => seq(alloc, quiet_items(alloc, items)?, *span),
        Expr::Choice { first, rest, span } => {
            let first = quiet_expression(alloc, first)?;
            choice(alloc, first, quiet_items(alloc, rest)?, *span)
        }
        Expr::Optional { part, .. }
        | Expr::Star { part, .. }
        | Expr::Plus { part, .. }
        | Expr::Counted { part, .. }
        | Expr::And { part, .. }
        | Expr::Not { part, .. } => {
            let copy = quiet_expression(alloc, part)?;
            with_part(alloc, expression, copy)
        }
    }
}

#[cycle(quiet)]
#[inline(never)]
fn quiet_items(alloc: Global, items: &[Expr]) -> Result<Vec<Expr>, AllocError>
    ensures { IfOk result (λ copies. map form_of copies.items ≡ map (λ item. quiet (form_of item)) items.now) }
{
    let mut copies = Vec::new(alloc);
    for item in items {
        let copy = quiet_expression(alloc, item)?;
        add(&mut copies, copy)?;
    }
    Ok(copies)
}
