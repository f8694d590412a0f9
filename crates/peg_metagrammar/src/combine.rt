//! Several expressions as one.
ghost use Rattle.std.specs.Prelude.{◌≡◌, ◌≤◌, ◌<◌, ◌∷◌, length, map, IfOk};
ghost use Rattle.peg_bytes.specs.Extent.{between};
ghost use Rattle.peg_grammar.specs.Written.{form_of};
ghost use Rattle.peg_metagrammar.specs.Denotation.{sequence_spelled, choice_spelled};

use peg_bytes::Span;
use peg_grammar::Expr;
use std::alloc::{AllocError, Global};

/// Returns the sequence of these expressions, with the span from `start` to `last`. A single expression is itself. An
/// empty sequence has the empty span at `before`.
pub fn sequence_of(mut items: Vec<Expr>, before: u32, start: u32, last: u32) -> Expr
    requires { 1 < length items.items → start ≤ last }
    ensures { form_of result ≡ sequence_spelled before (between start last) (map form_of items.items) }
{
    if items.len() > 1 {
        return Expr::Seq {
            items,
            span: Span::new(start, last),
        };
    }
    match items.pop() {
        Some(only) => only,
        None => Expr::Seq {
            items,
            span: Span::new(before, before),
        },
    }
}

/// Returns the choice of these expressions, with the span from `start` to `last`. The first one alone is itself. The only
/// error is a failed allocation.
pub fn choice_of(
    alloc: Global,
    first: Expr,
    rest: Vec<Expr>,
    start: u32,
    last: u32,
) -> Result<Expr, AllocError>
    requires { 0 < length rest.items → start ≤ last }
    ensures { IfOk result (λ choice. form_of choice
        ≡ choice_spelled (between start last) (form_of first ∷ map form_of rest.items)) }
{
    if rest.is_empty() {
        return Ok(first);
    }
    Ok(Expr::Choice {
        first: Box::new(alloc, first)?,
        rest,
        span: Span::new(start, last),
    })
}
