//! The spans of the items of a grammar: its terminals and predicates, except those inside predicates.
ghost use Rattle.std.specs.Prelude.{◌≡◌, ◌++◌, map, IfOk, OnOk};
ghost use Rattle.peg_bytes.specs.Extent.{extent};
ghost use Rattle.peg_diagnostics.specs.Items.{extents_of_items, item_extents, item_extents_of_all};
ghost use Rattle.peg_grammar.specs.GrammarRules.{rules_in};
ghost use Rattle.peg_grammar.specs.Written.{form_of};
ghost use Rattle.peg_semantics.specs.Form.{forms};

use peg_bytes::Span;
use peg_grammar::{Expr, Grammar};
use std::alloc::{AllocError, Global};

/// Returns the span of each item of a grammar in the grammar file, by item number. The only error is a failed
/// allocation. Linear in the weight of the grammar.
///
/// # Example
///
/// ```
/// let grammar = Grammar::new(alloc, read(alloc, b"S <- 'ab' !'c' .")?)?;
/// assert_eq!(item_spans(alloc, &grammar)?.as_slice()[1], Span::new(10, 14));
/// ```
pub fn item_spans(alloc: Global, grammar: &Grammar) -> Result<Vec<Span>, AllocError>
    ensures { IfOk result (λ spans. map extent spans.items ≡ extents_of_items (rules_in grammar.now)) }
{
    let mut spans = Vec::new(alloc);
    for rule in 0..grammar.rules() {
        add_spans(&mut spans, grammar.body(rule))?;
    }
    Ok(spans)
}

// Appends the spans of the items of an expression. Recurses as deep as expressions nest.
#[cycle(spans)]
fn add_spans(spans: &mut Vec<Span>, expression: &Expr) -> Result<(), AllocError>
    ensures { OnOk result (map extent spans.new.items
        ≡ map extent spans.old.items ++ item_extents (form_of expression.now)) }
{
    match expression {
        Expr::Literal { span, .. }
        | Expr::Class { span, .. }
        | Expr::Any { span }
        | Expr::And { span, .. }
        | Expr::Not { span, .. } => Ok(spans.push(*span)?),
        Expr::Name { .. } => Ok(()),
        Expr::Seq { items, .. } => add_all_spans(spans, items),
        Expr::Choice { first, rest, .. } => {
            add_spans(spans, first)?;
            add_all_spans(spans, rest)
        }
        Expr::Optional { part, .. }
        | Expr::Star { part, .. }
        | Expr::Plus { part, .. }
        | Expr::Counted { part, .. } => add_spans(spans, part),
    }
}

#[cycle(spans)]
fn add_all_spans(spans: &mut Vec<Span>, items: &[Expr]) -> Result<(), AllocError>
    ensures { OnOk result (map extent spans.new.items
        ≡ map extent spans.old.items ++ item_extents_of_all (forms (map form_of items.now))) }
{
    for item in items {
        add_spans(spans, item)?;
    }
    Ok(())
}
