//! The terminals that expressions begin with.
ghost use Rattle.std.specs.Prelude.{List, IfSome, IsTrue};
ghost use Rattle.peg_grammar.specs.GrammarRules.{rules_in};
ghost use Rattle.peg_grammar.specs.Written.{form_of};
ghost use Rattle.peg_semantics.specs.Rules.{Rule};
ghost use Rattle.peg_lint.specs.Linting.{IsHeadOf};
ghost use Rattle.peg_lint.specs.Never.{FailsWhere};

use peg_grammar::{Expr, Grammar};

/// One more than the number of steps that lead at most to the terminal that an expression begins with.
pub(crate) const STEPS: u8 = 8;

/// Returns the literal, class or dot that an expression begins with, if fewer than `steps` steps lead to it. A step is
/// to the first item of a sequence, to the part of a plus or an and-predicate, or to the expression of a rule.
pub(crate) fn head<'a>(grammar: &'a Grammar, expr: &'a Expr, steps: u8) -> Option<&'a Expr>
    ensures { IfSome result (λ start. IsHeadOf (rules_in grammar.now) (form_of start.now) (form_of expr.now)) }
{
    if steps == 0 {
        return None;
    }
    match expr {
        Expr::Literal { .. } | Expr::Class { .. } | Expr::Any { .. } => Some(expr),
        Expr::Name { name, .. } => match grammar.rule_number(name.as_str()) {
            Some(rule) => head(grammar, grammar.body(rule), steps - 1),
            None => None,
        },
        Expr::Seq { items, .. } => match items.first() {
            Some(item) => head(grammar, item, steps - 1),
            None => None,
        },
        Expr::Plus { part, .. } | Expr::And { part, .. } => head(grammar, part, steps - 1),
        Expr::Choice { .. }
        | Expr::Optional { .. }
        | Expr::Star { .. }
        | Expr::Counted { .. }
        | Expr::Not { .. } => None,
    }
}

/// Returns whether a literal, a class or a dot fails only where another one fails. Says no for an empty literal and for
/// an empty class. Takes time linear in the first one.
pub(crate) fn covers(one: &Expr, other: &Expr) -> bool
    ensures { IsTrue result → (rules : List Rule) → FailsWhere rules (form_of one.now) (form_of other.now) }
{
    match (one, other) {
        (Expr::Literal { bytes: a, .. }, Expr::Literal { bytes: b, .. }) => {
            !a.is_empty() && b.starts_with(a)
        }
        (Expr::Class { set, .. }, Expr::Literal { bytes, .. }) => match bytes.first() {
            Some(byte) => set.contains(*byte),
            None => false,
        },
        (Expr::Class { set: a, .. }, Expr::Class { set: b, .. }) => {
            !b.is_empty() && a.union(b) == *a
        }
        (Expr::Any { .. }, Expr::Literal { bytes, .. }) => !bytes.is_empty(),
        (Expr::Any { .. }, Expr::Class { set, .. }) => !set.is_empty(),
        (Expr::Any { .. }, Expr::Any { .. }) => true,
        _ => false,
    }
}
