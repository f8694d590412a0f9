//! The numbers of terminals. Terminals are literals, classes and dots, numbered from 0 in written order.
ghost use Rattle.std.specs.Prelude.{◌≡◌, ◌<◌, ◌^◌, map, IfOk};
ghost use Rattle.peg_semantics.specs.Form.{forms, terminals, terminals_of_all};
ghost use Rattle.peg_semantics.specs.Numbers.{first_from, terminals_of};
ghost use Rattle.peg_grammar.specs.Written.{form_of, rules_of};

use crate::{Definition, Expr};
use std::alloc::{AllocError, Global};

/// Counts the terminals in an expression.
#[cycle(count)]
pub(crate) fn terminal_count(expr: &Expr) -> u32
    requires { terminals (form_of expr.now) < 2 ^ 32 }
    ensures { result ≡ terminals (form_of expr.now) }
{
    match expr {
        Expr::Literal { .. } | Expr::Class { .. } | Expr::Any { .. } => 1,
        Expr::Name { .. } => 0,
        Expr::Seq { items, .. } => terminal_count_of_all(items),
        Expr::Choice { first, rest, .. } => terminal_count(first) + terminal_count_of_all(rest),
        Expr::Optional { part, .. }
        | Expr::Star { part, .. }
        | Expr::Plus { part, .. }
        | Expr::Counted { part, .. }
        | Expr::And { part, .. }
        | Expr::Not { part, .. } => terminal_count(part),
    }
}

#[cycle(count)]
fn terminal_count_of_all(items: &[Expr]) -> u32
    requires { terminals_of_all (forms (map form_of items.now)) < 2 ^ 32 }
    ensures { result ≡ terminals_of_all (forms (map form_of items.now)) }
{
    let mut all = 0;
    for item in items {
        all += terminal_count(item);
    }
    all
}

/// Returns the number of the first terminal of each definition, in order.
pub(crate) fn first_terminals(
    alloc: Global,
    definitions: &[Definition],
) -> Result<Vec<u32>, AllocError>
    requires { terminals_of (rules_of definitions.now) < 2 ^ 32 }
    ensures { IfOk result (λ first. first.items ≡ first_from 0 (rules_of definitions.now)) }
{
    let mut first = Vec::new(alloc);
    let mut next = 0;
    for definition in definitions {
        first.push(next)?;
        next += terminal_count(&definition.body);
    }
    Ok(first)
}
