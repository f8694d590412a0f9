//! The counts of bounded repetitions.
ghost use Rattle.std.specs.Prelude.{◌≡◌, ℕ, find, map, not, option_map};
ghost use Rattle.peg_bytes.specs.Extent.{Extent};
ghost use Rattle.peg_semantics.specs.Form.{Count as Written, counts_written, counts_written_by_all, forms};
ghost use Rattle.peg_semantics.specs.Grammar.{first_bad_count as the_first, is_in_range};
ghost use Rattle.peg_grammar.specs.Counts.{count_seen};
ghost use Rattle.peg_grammar.specs.Written.{form_of, rules_of};

use crate::{Definition, Expr};
use peg_bytes::Span;

// A count, with the span of the counted expression.
#[derive(Clone, Copy)]
pub(crate) struct Count {
    pub(crate) min: u8,
    pub(crate) max: u8,
    pub(crate) span: Span,
}

impl Count {
    ghost use Rattle.std.specs.Prelude.{◌≡◌};
    ghost use Rattle.peg_semantics.specs.Grammar.{is_in_range};
    ghost use Rattle.peg_grammar.specs.Counts.{count_seen};

    // Whether `min` is at most `max`, and `max` is at least 1.
    fn is_in_range(self) -> bool
        ensures { result ≡ is_in_range (count_seen self) }
    {
        self.min <= self.max && self.max >= 1
    }
}

// Finds the first count that is out of range, an expression before its parts.
pub(crate) fn first_bad_count(definitions: &[Definition]) -> Option<Count>
    ensures { option_map count_seen result ≡ the_first (rules_of definitions.now) }
{
    for definition in definitions {
        if let Some(bad) = bad_count_in(&definition.body) {
            return Some(bad);
        }
    }
    None
}

#[cycle(bad_count)]
fn bad_count_in(expression: &Expr) -> Option<Count>
    ensures { option_map count_seen result
        ≡ find (λ (count : Written). not (is_in_range count)) (counts_written (form_of expression.now)) }
{
    match expression {
        Expr::Literal { .. } | Expr::Class { .. } | Expr::Any { .. } | Expr::Name { .. } => None,
        Expr::Seq { items, .. } => bad_count_among(items),
        Expr::Choice { first, rest, .. } => match bad_count_in(first) {
            Some(bad) => Some(bad),
            None => bad_count_among(rest),
        },
        Expr::Counted {
            part,
            min,
            max,
            span,
        } => {
            let count = Count {
                min: *min,
                max: *max,
                span: *span,
            };
            if !count.is_in_range() {
                return Some(count);
            }
            bad_count_in(part)
        }
        Expr::Optional { part, .. }
        | Expr::Star { part, .. }
        | Expr::Plus { part, .. }
        | Expr::And { part, .. }
        | Expr::Not { part, .. } => bad_count_in(part),
    }
}

#[cycle(bad_count)]
fn bad_count_among(items: &[Expr]) -> Option<Count>
    ensures { option_map count_seen result
        ≡ find (λ (count : Written). not (is_in_range count))
        (counts_written_by_all (forms (map form_of items.now))) }
{
    for item in items {
        if let Some(bad) = bad_count_in(item) {
            return Some(bad);
        }
    }
    None
}
