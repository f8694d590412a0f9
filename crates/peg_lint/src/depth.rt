//! How deep expressions nest.
use peg_grammar::{Expr, Grammar};

// How deep the expressions of a grammar nest at most whose edges are looked at. This bounds the stack.
const MAX_DEPTH: u8 = 100;

// Returns whether an expression nests at most as deep as this.
#[cycle(depth)]
fn is_shallow(expr: &Expr, depth: u8) -> bool {
    if depth == 0 {
        return false;
    }
    match expr {
        Expr::Literal { .. } | Expr::Class { .. } | Expr::Any { .. } | Expr::Name { .. } => true,
        Expr::Seq { items, .. } => are_shallow(items, depth - 1),
        Expr::Choice { first, rest, .. } => {
            is_shallow(first, depth - 1) && are_shallow(rest, depth - 1)
        }
        Expr::Optional { part, .. }
        | Expr::Star { part, .. }
        | Expr::Plus { part, .. }
        | Expr::Counted { part, .. }
        | Expr::And { part, .. }
        | Expr::Not { part, .. } => is_shallow(part, depth - 1),
    }
}

// Returns whether each of these expressions nests at most as deep as this.
#[cycle(depth)]
fn are_shallow(items: &[Expr], depth: u8) -> bool {
    for item in items {
        if !is_shallow(item, depth) {
            return false;
        }
    }
    true
}

/// Returns whether the expressions of a grammar nest at most 100 deep, where an operator, a sequence and a choice are a
/// level each. Recurses at most as deep; takes time linear in the grammar.
pub(crate) fn has_shallow_rules(grammar: &Grammar) -> bool {
    for rule in 0..grammar.rules() {
        if !is_shallow(grammar.body(rule), MAX_DEPTH) {
            return false;
        }
    }
    true
}
