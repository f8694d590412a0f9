//! Spans and outcomes of written expressions.
ghost use Rattle.std.specs.Prelude.{◌≡◌, List, length, map, string_bytes};
ghost use Rattle.peg_bytes.specs.Extent.{Extent, extent};
ghost use Rattle.peg_check.specs.Cans.{can_of};
ghost use Rattle.peg_grammar.specs.GrammarRules.{rules_in};
ghost use Rattle.peg_grammar.specs.Written.{form_of};
ghost use Rattle.peg_semantics.specs.Form.{Form, Literal, Name};
ghost use Rattle.peg_semantics.specs.RuleOutcomes.{AreAbstractOutcomes, IsAbstractOutcome};
ghost use Rattle.peg_semantics.specs.Rules.{Rule};
ghost use Rattle.peg_lint.specs.Linting.{IsOperatorOn};
ghost use Rattle.peg_lint.specs.Warnings.{extent_of};

use crate::outcomes::{and, empty, none, not, optional, plus, repeat, some_bytes, star};
use peg_bytes::Span;
use peg_check::Can;
use peg_grammar::{Expr, Grammar};

/// Returns the span of an expression in the grammar file.
pub(crate) fn span_of(expr: &Expr) -> Span
    ensures { extent result ≡ extent_of (form_of expr.now) }
{
    match expr {
        Expr::Literal { span, .. }
        | Expr::Class { span, .. }
        | Expr::Any { span }
        | Expr::Name { span, .. }
        | Expr::Seq { span, .. }
        | Expr::Choice { span, .. }
        | Expr::Optional { span, .. }
        | Expr::Star { span, .. }
        | Expr::Plus { span, .. }
        | Expr::Counted { span, .. }
        | Expr::And { span, .. }
        | Expr::Not { span, .. } => *span,
    }
}

/// Returns the outcomes of a literal.
#[inline(never)]
pub(crate) fn literal_outcome(bytes: &[u8]) -> Can
    ensures { (rules : List Rule) (span : Extent) → IsAbstractOutcome rules (Literal bytes.now span) (can_of result) }
{
    if bytes.is_empty() {
        empty()
    } else {
        some_bytes()
    }
}

/// Returns the outcomes of a name, from those of each rule.
#[inline(never)]
pub(crate) fn name_outcome(grammar: &Grammar, outcomes: &[Can], name: &str) -> Can
    requires { AreAbstractOutcomes (rules_in grammar.now) (map can_of outcomes.now) }
    ensures { (span : Extent) → IsAbstractOutcome (rules_in grammar.now) (Name name.now span) (can_of result) }
{
    match grammar.rule_number(name) {
        Some(rule) => outcomes[rule as usize],
        None => none(),
    }
}

/// Returns the outcomes of an operator, from those of its part; of other expressions, none.
#[inline(never)]
pub(crate) fn operator_outcome(expr: &Expr, part: Can) -> Can
    ensures { (rules : List Rule) (e : Form) → IsOperatorOn (form_of expr.now) e
        → IsAbstractOutcome rules e (can_of part) → IsAbstractOutcome rules (form_of expr.now) (can_of result) }
{
    match expr {
        Expr::Optional { .. } => optional(part),
        Expr::Star { .. } => star(part),
        Expr::Plus { .. } => plus(part),
        Expr::Counted { min, max, .. } => repeat(part, *min, *max),
        Expr::And { .. } => and(part),
        Expr::Not { .. } => not(part),
        Expr::Literal { .. }
        | Expr::Class { .. }
        | Expr::Any { .. }
        | Expr::Name { .. }
        | Expr::Seq { .. }
        | Expr::Choice { .. } => none(),
    }
}
