//! The alternatives of a grammar.
ghost use Rattle.std.specs.Prelude.{◌≡◌, ◌++◌, map, IfOk, OnOk};
ghost use Rattle.peg_bytes.specs.Extent.{extent};
ghost use Rattle.peg_diagnostics.specs.Marked.{alternative_extents, alternative_extents_of_all};
ghost use Rattle.peg_diagnostics.specs.Marked.{alternative_extents_of_each, extents_of_alternatives};
ghost use Rattle.peg_grammar.specs.GrammarRules.{rules_in};
ghost use Rattle.peg_grammar.specs.Written.{form_of};
ghost use Rattle.peg_semantics.specs.Form.{forms};

use crate::loud_copies::span_of;
use peg_bytes::Span;
use peg_grammar::{Expr, Grammar};
use std::alloc::{AllocError, Global};

/// Returns the span of each alternative of a grammar in the grammar file, in written order: an alternative before those
/// inside it. The only error is a failed allocation. Linear in the weight of the grammar.
///
/// # Example
///
/// ```
/// let grammar = Grammar::new(alloc, read(alloc, b"S <- 'a' / ('b' / 'c') S")?)?;
/// assert_eq!(alternative_spans(alloc, &grammar)?.as_slice()[2], Span::new(12, 15));
/// ```
pub fn alternative_spans(alloc: Global, grammar: &Grammar) -> Result<Vec<Span>, AllocError>
    ensures { IfOk result (λ spans. map extent spans.items ≡ extents_of_alternatives (rules_in grammar.now)) }
{
    let mut spans = Vec::new(alloc);
    for rule in 0..grammar.rules() {
        add_spans(&mut spans, grammar.body(rule))?;
    }
    Ok(spans)
}

// Appends the spans of the alternatives in an expression. Recurses as deep as expressions nest.
#[cycle(spans)]
fn add_spans(spans: &mut Vec<Span>, expression: &Expr) -> Result<(), AllocError>
    ensures { OnOk result (map extent spans.new.items
        ≡ map extent spans.old.items ++ alternative_extents (form_of expression.now)) }
{
    match expression {
        Expr::Literal { .. } | Expr::Class { .. } | Expr::Any { .. } | Expr::Name { .. } => Ok(()),
        Expr::Seq { items, .. } => add_all_spans(spans, items),
        Expr::Choice { first, rest, .. } => {
            spans.push(span_of(first))?;
            add_spans(spans, first)?;
            add_each_span(spans, rest)
        }
        Expr::Optional { part, .. }
        | Expr::Star { part, .. }
        | Expr::Plus { part, .. }
        | Expr::Counted { part, .. }
        | Expr::And { part, .. }
        | Expr::Not { part, .. } => add_spans(spans, part),
    }
}

#[cycle(spans)]
fn add_all_spans(spans: &mut Vec<Span>, items: &[Expr]) -> Result<(), AllocError>
    ensures { OnOk result (map extent spans.new.items
        ≡ map extent spans.old.items ++ alternative_extents_of_all (forms (map form_of items.now))) }
{
    for item in items {
        add_spans(spans, item)?;
    }
    Ok(())
}

// Appends the spans of alternatives, and of the alternatives inside them.
#[cycle(spans)]
fn add_each_span(spans: &mut Vec<Span>, items: &[Expr]) -> Result<(), AllocError>
    ensures { OnOk result (map extent spans.new.items
        ≡ map extent spans.old.items ++ alternative_extents_of_each (forms (map form_of items.now))) }
{
    for item in items {
        spans.push(span_of(item))?;
        add_spans(spans, item)?;
    }
    Ok(())
}
