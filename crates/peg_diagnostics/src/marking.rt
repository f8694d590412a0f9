//! Marked expressions.
ghost use Rattle.std.specs.Prelude.{◌≡◌, ◌+◌, ◌<◌, ◌^◌, map, IfOk, OnOk, string_bytes};
ghost use Rattle.peg_bytes.specs.Extent.{extent};
ghost use Rattle.peg_diagnostics.specs.Diagnostic.{form_extent};
ghost use Rattle.peg_diagnostics.specs.Marked.{alternatives, alternatives_of_all, alternatives_of_each, mark, mark_all};
ghost use Rattle.peg_diagnostics.specs.Marked.{mark_each, marker_name, with_end, with_markers};
ghost use Rattle.peg_grammar.specs.Written.{form_of};
ghost use Rattle.peg_semantics.specs.Form.{Name, forms};

use crate::builders::{add, any, choice, class, literal, name, seq, with_part};
use crate::loud_copies::span_of;
use itoa::Buffer;
use peg_bytes::Span;
use peg_grammar::Expr;
use std::alloc::{AllocError, Global};

/// Returns the name of a marker. The only error is a failed allocation.
pub(crate) fn name_of_marker(alloc: Global, marker: u32) -> Result<String, AllocError>
    ensures { IfOk result (λ name. string_bytes name ≡ marker_name marker) }
{
    let mut buffer = Buffer::new();
    let mut name = String::from_str(alloc, "!")?;
    name.push_str(buffer.format(marker))?;
    Ok(name)
}

/// Returns the expression with its alternatives marked, and counts them on. The only error is a failed allocation.
/// Recurses as deep as expressions nest.
#[cycle(mark)]
pub(crate) fn marked_expression(
    alloc: Global,
    expression: &Expr,
    next: &mut u32,
) -> Result<Box<Expr>, AllocError>
    requires { next.old + alternatives (form_of expression.now) < 2 ^ 31 }
    ensures marked { IfOk result (λ e. form_of e.value ≡ mark next.old (form_of expression.now)) }
    ensures next { OnOk result (next.new ≡ next.old + alternatives (form_of expression.now)) }
{
    match expression {
        Expr::Literal { bytes, span } => literal(alloc, bytes, *span),
        Expr::Class { set, span } => class(alloc, *set, *span),
        Expr::Any { span } => any(alloc, *span),
        Expr::Name { name: called, span } => name(alloc, called, *span),
        Expr::Seq { items, span } => seq(alloc, marked_items(alloc, items, next)?, *span),
        Expr::Choice { first, rest, span } => {
            let first = marked_alternative(alloc, first, next)?;
            choice(alloc, first, marked_alternatives(alloc, rest, next)?, *span)
        }
        Expr::Optional { part, .. }
        | Expr::Star { part, .. }
        | Expr::Plus { part, .. }
        | Expr::Counted { part, .. }
        | Expr::And { part, .. }
        | Expr::Not { part, .. } => {
            let copy = marked_expression(alloc, part, next)?;
            with_part(alloc, expression, copy)
        }
    }
}

#[cycle(mark)]
#[inline(never)]
fn marked_items(alloc: Global, items: &[Expr], next: &mut u32) -> Result<Vec<Expr>, AllocError>
    requires { next.old + alternatives_of_all (forms (map form_of items.now)) < 2 ^ 31 }
    ensures marked { IfOk result (λ copies. forms (map form_of copies.items)
        ≡ mark_all next.old (forms (map form_of items.now))) }
    ensures next { OnOk result (next.new ≡ next.old + alternatives_of_all (forms (map form_of items.now))) }
{
    let mut copies = Vec::new(alloc);
    for item in items {
        let copy = marked_expression(alloc, item, next)?;
        add(&mut copies, copy)?;
    }
    Ok(copies)
}

#[cycle(mark)]
#[inline(never)]
fn marked_alternatives(
    alloc: Global,
    items: &[Expr],
    next: &mut u32,
) -> Result<Vec<Expr>, AllocError>
    requires { next.old + alternatives_of_each (forms (map form_of items.now)) < 2 ^ 31 }
    ensures marked { IfOk result (λ copies. forms (map form_of copies.items)
        ≡ mark_each next.old (forms (map form_of items.now))) }
    ensures next { OnOk result (next.new ≡ next.old + alternatives_of_each (forms (map form_of items.now))) }
{
    let mut copies = Vec::new(alloc);
    for item in items {
        let copy = marked_alternative(alloc, item, next)?;
        add(&mut copies, copy)?;
    }
    Ok(copies)
}

// Returns an alternative between the calls of its markers, and counts it.
#[cycle(mark)]
#[inline(never)]
fn marked_alternative(alloc: Global, item: &Expr, next: &mut u32) -> Result<Box<Expr>, AllocError>
    requires { next.old + 1 + alternatives (form_of item.now) < 2 ^ 31 }
    ensures marked { IfOk result (λ e. form_of e.value ≡ with_markers next.old (form_extent (form_of item.now))
        (mark (next.old + 1) (form_of item.now))) }
    ensures next { OnOk result (next.new ≡ next.old + 1 + alternatives (form_of item.now)) }
{
    let number = *next;
    *next += 1;
    let marked = marked_expression(alloc, item, next)?;
    between_markers(alloc, number, span_of(item), marked)
}

// Builds the sequence of an alternative between the calls of its markers.
#[inline(never)]
fn between_markers(
    alloc: Global,
    number: u32,
    span: Span,
    alternative: Box<Expr>,
) -> Result<Box<Expr>, AllocError>
    requires { number < 2 ^ 31 }
    ensures { IfOk result (λ e. form_of e.value ≡ with_markers number (extent span) (form_of alternative.value)) }
{
    let first = marker_call(alloc, 2 * number, span)?;
    let last = marker_call(alloc, 2 * number + 1, span)?;
    let mut items = Vec::new(alloc);
    add(&mut items, first)?;
    add(&mut items, alternative)?;
    add(&mut items, last)?;
    seq(alloc, items, span)
}

/// Builds the sequence of an expression and the call of a marker. The only error is a failed allocation.
pub(crate) fn expression_with_end(
    alloc: Global,
    marker: u32,
    span: Span,
    expression: Box<Expr>,
) -> Result<Box<Expr>, AllocError>
    ensures { IfOk result (λ e. form_of e.value ≡ with_end marker (extent span) (form_of expression.value)) }
{
    let last = marker_call(alloc, marker, span)?;
    let mut items = Vec::new(alloc);
    add(&mut items, expression)?;
    add(&mut items, last)?;
    seq(alloc, items, span)
}

// Builds the call of a marker.
fn marker_call(alloc: Global, marker: u32, span: Span) -> Result<Box<Expr>, AllocError>
    ensures { IfOk result (λ e. form_of e.value ≡ Name (marker_name marker) (extent span)) }
{
    let called = name_of_marker(alloc, marker)?;
    name(alloc, &called, span)
}
