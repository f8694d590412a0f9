//! Alternatives that fail wherever an earlier one fails.
ghost use Rattle.std.specs.Prelude.{◌≡◌, ◌∷◌, ◌<◌, ◌≤◌, ℕ, List, Some, length, map, slice_get, IfSome, IsTrue, OnOk};
ghost use Rattle.peg_bytes.specs.Extent.{Extent};
ghost use Rattle.peg_grammar.specs.GrammarRules.{rules_in};
ghost use Rattle.peg_grammar.specs.Written.{form_of};
ghost use Rattle.peg_grammar.specs.declared.expr.Expr.{Expr as CodeExpr};
ghost use Rattle.peg_semantics.specs.Form.{Choice, Form, forms};
ghost use Rattle.peg_semantics.specs.Rules.{Rule};
ghost use Rattle.peg_lint.specs.Known.{AreKnown, IsTaken, known_of};
ghost use Rattle.peg_lint.specs.Linting.{IsHeadOf, KeepsTrue};
ghost use Rattle.peg_lint.specs.Never.{FailsWhere};
ghost use Rattle.peg_lint.specs.Warnings.{IsPartOfRule};

use crate::edge_table::edges_of;
use crate::edges::{Edges, begins_within};
use crate::expressions::span_of;
use crate::heads::{STEPS, covers, head};
use crate::repeats::alternative_at;
use crate::same::is_same;
use crate::{Warning, WarningKind};
use peg_grammar::laws::results_show_abstract_outcomes;
use peg_grammar::{Expr, Grammar};
use std::alloc::AllocError;

// How many earlier alternatives an alternative is compared with.
const REACH: usize = 32;

// Returns whether an alternative that begins with a terminal fails wherever an earlier one fails.
fn is_covered(one: &Expr, start: Option<&Expr>) -> bool
    ensures { IsTrue result → (rules : List Rule) (e : Form)
        → IfSome start.entry (λ terminal. IsHeadOf rules (form_of terminal.now) e) → FailsWhere rules (form_of one.now) e }
{
    match start {
        Some(terminal) => covers(one, terminal),
        None => false,
    }
}

// Returns whether an alternative only matches before a byte that an earlier one, which may fail, doesn't fail before.
fn is_taken(earlier: &Edges, later: &Edges) -> bool
    ensures { IsTrue result → IsTaken (known_of earlier.now) (known_of later.now) }
{
    earlier.fails && !later.nothing && begins_within(later, &earlier.takes)
}

// Returns the number of an earlier alternative that fails only where this one fails, among the nearest.
fn shadowing(
    grammar: &Grammar,
    table: &[Edges],
    first: &Expr,
    rest: &[Expr],
    number: usize,
) -> Option<usize>
    requires count { length table.now ≡ length (rules_in grammar.now) }
    requires number { number ≤ length rest.now }
    ensures earlier { IfSome result (λ earlier. earlier < number) }
    ensures fails { IfSome result (λ earlier. (n : ℕ) (one other : CodeExpr)
        → AreKnown (rules_in grammar.now) n table.now
        → slice_get (first.now ∷ rest.now) earlier ≡ Some one → slice_get (first.now ∷ rest.now) number ≡ Some other
        → FailsWhere (rules_in grammar.now) (form_of one) (form_of other)) }
{
    results_show_abstract_outcomes();
    let later = alternative_at(first, rest, number);
    let start = head(grammar, later, STEPS);
    let edges = edges_of(grammar, table, later);
    'earlier: for earlier in number.saturating_sub(REACH)..number {
        let one = alternative_at(first, rest, earlier);
        if is_covered(one, start) {
            return Some(earlier);
        }
        let before = edges_of(grammar, table, one);
        if is_taken(&before, &edges) {
            return Some(earlier);
        }
    }
    None
}

/// Adds a warning for each alternative of a choice that fails wherever one of the 32 before it fails. One that is the
/// same has another kind of warning. Takes time linear in the choice.
#[inline(never)]
pub(crate) fn add_shadowed(
    grammar: &Grammar,
    table: &[Edges],
    rule: u32,
    first: &Expr,
    rest: &[Expr],
    found: &mut Vec<Warning>,
) -> Result<(), AllocError>
    requires { length table.now ≡ length (rules_in grammar.now) }
    ensures { OnOk result ((n : ℕ) (span : Extent) → AreKnown (rules_in grammar.now) n table.now
        → IsPartOfRule (rules_in grammar.now) rule (Choice (form_of first.now) (forms (map form_of rest.now)) span)
        → KeepsTrue (rules_in grammar.now) found.old.items found.new.items) }
{
    'alternatives: for index in 0..rest.len() {
        let Some(earlier) = shadowing(grammar, table, first, rest, index + 1) else {
            continue;
        };
        let later = alternative_at(first, rest, index + 1);
        let before = alternative_at(first, rest, earlier);
        if is_same(before, later) {
            continue;
        }
        found.push(Warning {
            kind: WarningKind::Shadowed,
            rule,
            span: span_of(later),
            by: Some(span_of(before)),
        })?;
    }
    Ok(())
}
