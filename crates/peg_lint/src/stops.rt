//! Items of sequences that fail, or match no byte, wherever the item before them ends.
ghost use Rattle.std.specs.Prelude.{◌≡◌, ℕ, length, map, IfNone, IfSome, IsTrue, OnOk};
ghost use Rattle.peg_bytes.specs.Extent.{Extent};
ghost use Rattle.peg_grammar.specs.GrammarRules.{rules_in};
ghost use Rattle.peg_grammar.specs.Written.{form_of};
ghost use Rattle.peg_semantics.specs.Form.{Seq, forms};
ghost use Rattle.peg_lint.specs.Known.{AreKnown, SaysAfter};
ghost use Rattle.peg_lint.specs.Linting.{IsStuck, KeepsTrue};
ghost use Rattle.peg_lint.specs.Warnings.{IsPartOfRule, IsRepeat, IsRepeatOf};

use crate::edge_table::edges_of;
use crate::edges::{Edges, begins_within, may_match};
use crate::expressions::span_of;
use crate::heads::{STEPS, covers, head};
use crate::{Warning, WarningKind};
use peg_grammar::laws::results_show_abstract_outcomes;
use peg_grammar::{Expr, Grammar};
use std::alloc::AllocError;

// Returns the part of a star or a plus.
fn repeated(expr: &Expr) -> Option<&Expr>
    ensures some { IfSome result (λ part. IsRepeatOf (form_of expr.now) (form_of part.now)) }
    ensures none { IfNone result (¬ IsRepeat (form_of expr.now)) }
{
    match expr {
        Expr::Star { part, .. } | Expr::Plus { part, .. } => Some(part),
        Expr::Literal { .. }
        | Expr::Class { .. }
        | Expr::Any { .. }
        | Expr::Name { .. }
        | Expr::Seq { .. }
        | Expr::Choice { .. }
        | Expr::Optional { .. }
        | Expr::Counted { .. }
        | Expr::And { .. }
        | Expr::Not { .. } => None,
    }
}

// Returns whether an item begins with a terminal that the part of the repetition before it covers.
fn is_stuck(grammar: &Grammar, repeat: &Expr, next: &Expr) -> bool
    ensures { IsTrue result → IsStuck (rules_in grammar.now) (form_of repeat.now) (form_of next.now) }
{
    let Some(part) = repeated(repeat) else {
        return false;
    };
    let Some(start) = head(grammar, next, STEPS) else {
        return false;
    };
    covers(part, start)
}

// Returns the kind of warning about an item after another one, if there is one.
fn kind_after(grammar: &Grammar, table: &[Edges], before: &Expr, next: &Expr) -> Option<WarningKind>
    requires { length table.now ≡ length (rules_in grammar.now) }
    ensures { IfSome result (λ kind. (n : ℕ) → AreKnown (rules_in grammar.now) n table.now
        → SaysAfter (rules_in grammar.now) (form_of before.now) (form_of next.now) kind) }
{
    if is_stuck(grammar, before, next) {
        return Some(WarningKind::NeverStops);
    }
    results_show_abstract_outcomes();
    let earlier = edges_of(grammar, table, before);
    let later = edges_of(grammar, table, next);
    if !may_match(&earlier) {
        return None;
    }
    if !begins_within(&later, &earlier.stops) {
        return None;
    }
    if later.nothing {
        return Some(WarningKind::TakesNothing);
    }
    match repeated(before) {
        Some(_part) => Some(WarningKind::NeverStops),
        None => Some(WarningKind::NeverFollows),
    }
}

/// Adds a warning for each item of a sequence that fails, or matches no byte, wherever the item before it ends. Takes
/// time linear in the sequence.
#[inline(never)]
pub(crate) fn add_never_stops(
    grammar: &Grammar,
    table: &[Edges],
    rule: u32,
    items: &[Expr],
    found: &mut Vec<Warning>,
) -> Result<(), AllocError>
    requires { length table.now ≡ length (rules_in grammar.now) }
    ensures { OnOk result ((n : ℕ) (span : Extent) → AreKnown (rules_in grammar.now) n table.now
        → IsPartOfRule (rules_in grammar.now) rule (Seq (forms (map form_of items.now)) span)
        → KeepsTrue (rules_in grammar.now) found.old.items found.new.items) }
{
    'items: for index in 1..items.len() {
        let before = &items[index - 1];
        let next = &items[index];
        let Some(kind) = kind_after(grammar, table, before, next) else {
            continue;
        };
        found.push(Warning {
            kind,
            rule,
            span: span_of(next),
            by: Some(span_of(before)),
        })?;
    }
    Ok(())
}
