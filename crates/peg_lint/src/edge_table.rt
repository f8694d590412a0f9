//! What is known of the edges of expressions, from what is known of each rule's expression.
ghost use Rattle.std.specs.Prelude.{◌≡◌, ℕ, length, map, suc, IfOk};
ghost use Rattle.peg_grammar.specs.GrammarRules.{rules_in};
ghost use Rattle.peg_grammar.specs.Written.{form_of};
ghost use Rattle.peg_semantics.specs.Form.{forms};
ghost use Rattle.peg_semantics.specs.Rules.{meaning_of};
ghost use Rattle.peg_lint.specs.Edges.{alternatives_edges, edges_in, items_edges, meaning_edges};
ghost use Rattle.peg_lint.specs.Known.{AreKnown, known_of};

use crate::edges::{
    Edges, and, count, dot, empty, fail, literal, not, one_of, optional, or_else, plus, star, then,
    unknown,
};
use peg_grammar::{Expr, Grammar};
use std::alloc::{AllocError, Global};

// Through how many rules names are followed.
const ROUNDS: u8 = 16;

// Returns what is known of a name.
fn name_edges(grammar: &Grammar, table: &[Edges], name: &str) -> Edges
    requires { length table.now ≡ length (rules_in grammar.now) }
    ensures { (n : ℕ) → AreKnown (rules_in grammar.now) n table.now
        → known_of result ≡ meaning_edges (edges_in (rules_in grammar.now) n) (meaning_of (rules_in grammar.now) name.now) }
{
    match grammar.rule_number(name) {
        Some(rule) => table[rule as usize],
        None => unknown(),
    }
}

/// Returns what is known of an expression, from what is known of each rule's expression. Recurses as deep as expressions
/// nest; takes time linear in the expression.
#[cycle(edges)]
pub(crate) fn edges_of(grammar: &Grammar, table: &[Edges], expr: &Expr) -> Edges
    requires { length table.now ≡ length (rules_in grammar.now) }
    ensures { (n : ℕ) → AreKnown (rules_in grammar.now) n table.now
        → known_of result ≡ edges_in (rules_in grammar.now) (suc n) (form_of expr.now) }
{
    match expr {
        Expr::Literal { bytes, .. } => literal(bytes),
        Expr::Class { set, .. } => one_of(*set),
        Expr::Any { .. } => dot(),
        Expr::Name { name, .. } => name_edges(grammar, table, name.as_str()),
        Expr::Seq { items, .. } => edges_of_items(grammar, table, items),
        Expr::Choice { first, rest, .. } => or_else(
            &edges_of(grammar, table, first),
            &edges_of_alternatives(grammar, table, rest),
        ),
        Expr::Optional { part, .. } => optional(&edges_of(grammar, table, part)),
        Expr::Star { part, .. } => star(&edges_of(grammar, table, part)),
        Expr::Plus { part, .. } => plus(&edges_of(grammar, table, part)),
        Expr::Counted { part, min, max, .. } => count(&edges_of(grammar, table, part), *min, *max),
        Expr::And { part, .. } => and(&edges_of(grammar, table, part)),
        Expr::Not { part, .. } => not(&edges_of(grammar, table, part)),
    }
}

// Returns what is known of a sequence of items.
#[cycle(edges)]
fn edges_of_items(grammar: &Grammar, table: &[Edges], items: &[Expr]) -> Edges
    requires { length table.now ≡ length (rules_in grammar.now) }
    ensures { (n : ℕ) → AreKnown (rules_in grammar.now) n table.now
        → known_of result ≡ items_edges (rules_in grammar.now) (edges_in (rules_in grammar.now) n)
        (forms (map form_of items.now)) }
{
    let mut all = empty();
    let mut index = items.len();
    'items: while index > 0 {
        index -= 1;
        let item = edges_of(grammar, table, &items[index]);
        all = then(&item, &all);
    }
    all
}

// Returns what is known of a choice of alternatives; of none, what is known of a failure.
#[cycle(edges)]
fn edges_of_alternatives(grammar: &Grammar, table: &[Edges], alternatives: &[Expr]) -> Edges
    requires { length table.now ≡ length (rules_in grammar.now) }
    ensures { (n : ℕ) → AreKnown (rules_in grammar.now) n table.now
        → known_of result ≡ alternatives_edges (rules_in grammar.now) (edges_in (rules_in grammar.now) n)
        (forms (map form_of alternatives.now)) }
{
    let mut any = fail();
    let mut index = alternatives.len();
    'alternatives: while index > 0 {
        index -= 1;
        let alternative = edges_of(grammar, table, &alternatives[index]);
        any = or_else(&alternative, &any);
    }
    any
}

// Returns a table in which nothing is known of the rules' expressions.
fn unknown_table(alloc: Global, grammar: &Grammar) -> Result<Vec<Edges>, AllocError>
    ensures { IfOk result (λ table. AreKnown (rules_in grammar.now) 0 table.items) }
{
    let mut table = Vec::new(alloc);
    'rules: for _rule in 0..grammar.rules() {
        table.push(unknown())?;
    }
    Ok(table)
}

// Returns what is known of each rule's expression, if names are followed through one rule more than in a table.
fn next_table(alloc: Global, grammar: &Grammar, table: &[Edges]) -> Result<Vec<Edges>, AllocError>
    requires { length table.now ≡ length (rules_in grammar.now) }
    ensures { IfOk result (λ next. (n : ℕ) → AreKnown (rules_in grammar.now) n table.now
        → AreKnown (rules_in grammar.now) (suc n) next.items) }
{
    let mut next = Vec::new(alloc);
    'rules: for rule in 0..grammar.rules() {
        next.push(edges_of(grammar, table, grammar.body(rule)))?;
    }
    Ok(next)
}

/// Returns what is known of each rule's expression, where names are followed through 16 rules. Takes time linear in the
/// grammar.
pub(crate) fn edge_table(alloc: Global, grammar: &Grammar) -> Result<Vec<Edges>, AllocError>
    ensures { IfOk result (λ table. AreKnown (rules_in grammar.now) 16 table.items) }
{
    let mut table = unknown_table(alloc, grammar)?;
    'rounds: for _round in 0..ROUNDS {
        table = next_table(alloc, grammar, &table)?;
    }
    Ok(table)
}
