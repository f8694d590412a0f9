//! The number of instructions of a grammar's code, computed from its written expressions.
ghost use Rattle.std.specs.Prelude.{◌≡◌, ℕ, ◌+◌, ◌<◌, ◌≤◌, length, map, min};
ghost use Rattle.peg_core.specs.CoreForm.{core_bodies};
ghost use Rattle.peg_semantics.specs.Form.{forms};
ghost use Rattle.peg_grammar.specs.GrammarRules.{rules_in};
ghost use Rattle.peg_grammar.specs.Written.{form_of};
ghost use Rattle.peg_code.specs.Code.{program_code};
ghost use Rattle.peg_code.specs.Compiled.{max_instructions};
ghost use Rattle.peg_code.specs.Sizes.{capped};
ghost use Rattle.peg_code.specs.WrittenSizes.{counted_size, written_size, written_sizes};

use crate::MAX_INSTRUCTIONS;
use peg_grammar::{Expr, Grammar};

// One more than the limit.
const CAP: u32 = MAX_INSTRUCTIONS + 1;

/// Returns the number of instructions of a grammar's code, or `MAX_INSTRUCTIONS` + 1 if there are more. Counts are not
/// unfolded, so this takes time linear in the weight of the grammar. Allocates nothing.
///
/// # Example
///
/// ```
/// let grammar = Grammar::new(alloc, read(alloc, b"S <- 'a' S / 'b'")?)?;
/// assert_eq!(code_size(&grammar), 7);
/// ```
pub fn code_size(grammar: &Grammar) -> u32
    ensures { result ≡ min (length (program_code (core_bodies (rules_in grammar.now)))) (max_instructions + 1) }
{
    let mut total = 1;
    for rule in 0..grammar.rules() {
        let size = expression_size(grammar.body(rule));
        total = capped_sum(total, capped_sum(size, 1));
    }
    total
}

// The number of instructions of an expression, capped. Recurses as deep as expressions nest.
#[cycle(sizes)]
fn expression_size(expression: &Expr) -> u32
    ensures { result ≡ capped (written_size (form_of expression.now)) }
{
    match expression {
        Expr::Literal { bytes, .. } => bytes.len().min(CAP as usize) as u32,
        Expr::Class { .. } | Expr::Any { .. } | Expr::Name { .. } => 1,
        Expr::Seq { items, .. } => items_size(items, 0),
        Expr::Choice { first, rest, .. } => capped_sum(expression_size(first), items_size(rest, 2)),
        Expr::Counted { part, min, max, .. } => capped_count(expression_size(part), *min, *max),
        Expr::Plus { part, .. } => {
            let size = expression_size(part);
            capped_sum(size, capped_sum(size, 2))
        }
        Expr::And { part, .. } => capped_sum(expression_size(part), 4),
        Expr::Optional { part, .. } | Expr::Star { part, .. } | Expr::Not { part, .. } => {
            capped_sum(expression_size(part), 2)
        }
    }
}

#[cycle(sizes)]
fn items_size(items: &[Expr], each: u32) -> u32
    ensures { result ≡ capped (written_sizes each (forms (map form_of items.now))) }
{
    let mut total = 0;
    for item in items {
        total = capped_sum(total, capped_sum(expression_size(item), each));
    }
    total
}

// The sum of two sizes, capped.
fn capped_sum(first: u32, second: u32) -> u32
    ensures { result ≡ capped (first + second) }
{
    first.saturating_add(second).min(CAP)
}

// The number of instructions of a count, capped, from that of its part.
fn capped_count(size: u32, min: u8, max: u8) -> u32
    requires { size ≤ max_instructions + 1 }
    ensures { (whole : ℕ) → size ≡ capped whole → result ≡ capped (counted_size whole min max) }
{
    if max == 0 {
        return capped_sum(size, 2);
    }
    let optional = max.saturating_sub(min);
    capped_sum(u32::from(max) * size, 2 * u32::from(optional))
}
