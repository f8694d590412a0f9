//! The weight of a grammar.
ghost use Rattle.std.specs.Prelude.{◌≡◌, ◌-◌, ◌^◌, map, min};
ghost use Rattle.peg_semantics.specs.Form.{form_weight, forms, forms_weight};
ghost use Rattle.peg_semantics.specs.Rules.{weight_of};
ghost use Rattle.peg_grammar.specs.Written.{form_of, rules_of};

use crate::{Definition, Expr};

/// Returns the weight of the definitions: the number of rules, of expressions and of bytes in literals. The sum
/// saturates at `u64::MAX`. Linear in the weight; allocates nothing.
pub fn weight(definitions: &[Definition]) -> u64
    ensures { result ≡ min (weight_of (rules_of definitions.now)) (2 ^ 64 - 1) }
{
    let mut all = 0u64;
    for definition in definitions {
        all = all
            .saturating_add(1)
            .saturating_add(expression_weight(&definition.body));
    }
    all
}

// The weight of an expression: 1 for itself and for each subexpression, and 1 for each byte of a literal.
#[cycle(weight)]
fn expression_weight(expression: &Expr) -> u64
    ensures { result ≡ min (form_weight (form_of expression.now)) (2 ^ 64 - 1) }
{
    let parts = match expression {
        Expr::Literal { bytes, .. } => bytes.len() as u64,
        Expr::Class { .. } | Expr::Any { .. } | Expr::Name { .. } => 0,
        Expr::Seq { items, .. } => items_weight(items),
        Expr::Choice { first, rest, .. } => {
            expression_weight(first).saturating_add(items_weight(rest))
        }
        Expr::Optional { part, .. }
        | Expr::Star { part, .. }
        | Expr::Plus { part, .. }
        | Expr::Counted { part, .. }
        | Expr::And { part, .. }
        | Expr::Not { part, .. } => expression_weight(part),
    };
    parts.saturating_add(1)
}

#[cycle(weight)]
fn items_weight(items: &[Expr]) -> u64
    ensures { result ≡ min (forms_weight (forms (map form_of items.now))) (2 ^ 64 - 1) }
{
    let mut all = 0u64;
    for item in items {
        all = all.saturating_add(expression_weight(item));
    }
    all
}
