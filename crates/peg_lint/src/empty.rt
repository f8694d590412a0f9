//! Empty alternatives.
ghost use Rattle.std.specs.Prelude.{◌≡◌, ◌≢◌, ℕ, List, map, IfNone, IfSome, OnOk};
ghost use Rattle.peg_bytes.specs.Extent.{Extent, extent};
ghost use Rattle.peg_grammar.specs.Written.{form_of};
ghost use Rattle.peg_semantics.specs.Form.{Choice, End, Seq, forms};
ghost use Rattle.peg_semantics.specs.Rules.{Rule};
ghost use Rattle.peg_lint.specs.Linting.{AddsIn, FindsEmpty};
ghost use Rattle.peg_lint.specs.Warnings.{IsPartOfRule};

use crate::repeats::alternative_at;
use crate::{Warning, WarningKind};
use peg_bytes::Span;
use peg_grammar::Expr;
use std::alloc::AllocError;

// Returns the span of a sequence without items.
fn empty_span(expr: &Expr) -> Option<Span>
    ensures some { IfSome result (λ span. form_of expr.now ≡ Seq End (extent span)) }
    ensures none { IfNone result ((span : Extent) → form_of expr.now ≢ Seq End span) }
{
    match expr {
        Expr::Seq { items, span } => { if items.is_empty() { Some(*span) } else { None } }
        Expr::Literal { .. }
        | Expr::Class { .. }
        | Expr::Any { .. }
        | Expr::Name { .. }
        | Expr::Choice { .. }
        | Expr::Optional { .. }
        | Expr::Star { .. }
        | Expr::Plus { .. }
        | Expr::Counted { .. }
        | Expr::And { .. }
        | Expr::Not { .. } => None,
    }
}

/// Adds a warning for each empty alternative of a choice but the last. Takes time linear in their number.
#[inline(never)]
pub(crate) fn add_empty_alternatives(
    rule: u32,
    first: &Expr,
    rest: &[Expr],
    found: &mut Vec<Warning>,
) -> Result<(), AllocError>
    ensures { OnOk result ((file : List ℕ) (rules : List Rule) (span : Extent)
        → IsPartOfRule rules rule (Choice (form_of first.now) (forms (map form_of rest.now)) span)
        → AddsIn file rules (FindsEmpty rule (Choice (form_of first.now) (forms (map form_of rest.now)) span))
        found.old.items found.new.items) }
{
    'alternatives: for index in 0..rest.len() {
        let earlier = alternative_at(first, rest, index);
        let Some(span) = empty_span(earlier) else {
            continue;
        };
        found.push(Warning {
            kind: WarningKind::EmptyAlternative,
            rule,
            span,
            by: None,
        })?;
    }
    Ok(())
}
