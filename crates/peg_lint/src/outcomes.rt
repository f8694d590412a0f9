//! Ford's abstract outcomes of a written expression, from the outcomes of its parts (Ford 2004, section 3.5).
ghost use Rattle.std.specs.Prelude.{◌≡◌, length, map};
ghost use Rattle.peg_bytes.specs.ByteSet.{bytes_of};
ghost use Rattle.peg_semantics.specs.AbstractOutcomes.{always_empty, and_outcome, can_of_set, choice_outcome};
ghost use Rattle.peg_semantics.specs.AbstractOutcomes.{consumes_or_fails, no_outcome, not_outcome, optional_outcome};
ghost use Rattle.peg_semantics.specs.AbstractOutcomes.{plus_outcome, repeat_outcome, seq_outcome, star_outcome, succeeds};
ghost use Rattle.peg_check.specs.Cans.{can_of};
ghost use Rattle.peg_lint.specs.Outcomes.{outcome_of_all, outcome_of_any};

use peg_bytes::ByteSet;
use peg_check::Can;

/// Returns the outcomes of an undefined name.
pub(crate) fn none() -> Can
    ensures { can_of result ≡ no_outcome }
{
    Can {
        nothing: false,
        something: false,
        fails: false,
    }
}

/// Returns the outcomes of an expression that always matches the empty string.
pub(crate) fn empty() -> Can
    ensures { can_of result ≡ always_empty }
{
    Can {
        nothing: true,
        something: false,
        fails: false,
    }
}

/// Returns the outcomes of a nonempty literal or of a dot.
pub(crate) fn some_bytes() -> Can
    ensures { can_of result ≡ consumes_or_fails }
{
    Can {
        nothing: false,
        something: true,
        fails: true,
    }
}

/// Returns the outcomes of a class.
pub(crate) fn class(set: ByteSet) -> Can
    ensures { can_of result ≡ can_of_set (bytes_of set) }
{
    Can {
        nothing: false,
        something: !set.is_empty(),
        fails: true,
    }
}

/// Returns whether an expression can match.
pub(crate) fn succeeds(can: Can) -> bool
    ensures { result ≡ succeeds (can_of can) }
{
    can.nothing || can.something
}

// Returns the outcomes of a sequence of two expressions.
fn then(first: Can, rest: Can) -> Can
    ensures { can_of result ≡ seq_outcome (can_of first) (can_of rest) }
{
    let succeed = succeeds(first) && succeeds(rest);
    Can {
        nothing: first.nothing && rest.nothing,
        something: succeed && (first.something || rest.something),
        fails: first.fails || (succeeds(first) && rest.fails),
    }
}

/// Returns the outcomes of a choice of two expressions.
pub(crate) fn or_else(first: Can, rest: Can) -> Can
    ensures { can_of result ≡ choice_outcome (can_of first) (can_of rest) }
{
    Can {
        nothing: first.nothing || (first.fails && rest.nothing),
        something: first.something || (first.fails && rest.something),
        fails: first.fails && rest.fails,
    }
}

/// Returns the outcomes of an optional part.
pub(crate) fn optional(part: Can) -> Can
    ensures { can_of result ≡ optional_outcome (can_of part) }
{
    Can {
        nothing: part.nothing || part.fails,
        something: part.something,
        fails: false,
    }
}

/// Returns the outcomes of a star.
pub(crate) fn star(part: Can) -> Can
    ensures { can_of result ≡ star_outcome (can_of part) }
{
    Can {
        nothing: part.fails,
        something: part.something,
        fails: false,
    }
}

/// Returns the outcomes of a plus.
pub(crate) fn plus(part: Can) -> Can
    ensures { can_of result ≡ plus_outcome (can_of part) }
{
    Can {
        nothing: part.nothing && part.fails,
        something: part.something,
        fails: part.fails,
    }
}

/// Returns the outcomes of a count. Recurses at most 255 deep.
pub(crate) fn repeat(part: Can, min: u8, max: u8) -> Can
    ensures { can_of result ≡ repeat_outcome (can_of part) min max }
{
    if max == 0 {
        return empty();
    }
    if min == 0 {
        return optional(then(part, repeat(part, 0, max - 1)));
    }
    then(part, repeat(part, min - 1, max - 1))
}

/// Returns the outcomes of an and-predicate.
pub(crate) fn and(part: Can) -> Can
    ensures { can_of result ≡ and_outcome (can_of part) }
{
    Can {
        nothing: succeeds(part),
        something: false,
        fails: part.fails,
    }
}

/// Returns the outcomes of a not-predicate.
pub(crate) fn not(part: Can) -> Can
    ensures { can_of result ≡ not_outcome (can_of part) }
{
    Can {
        nothing: part.fails,
        something: false,
        fails: succeeds(part),
    }
}

/// Returns the outcomes of a sequence of items with these outcomes. Takes time linear in their number.
#[inline(never)]
pub(crate) fn all_of(items: &[Can]) -> Can
    ensures { can_of result ≡ outcome_of_all (map can_of items.now) }
{
    let mut outcome = empty();
    let mut index = items.len();
    'items: while index > 0 {
        index -= 1;
        outcome = then(items[index], outcome);
    }
    outcome
}

/// Returns the outcomes of a choice of alternatives with these outcomes; of none, those of a failure. Takes time linear
/// in their number.
#[inline(never)]
pub(crate) fn any_of(alternatives: &[Can]) -> Can
    ensures { can_of result ≡ outcome_of_any (map can_of alternatives.now) }
{
    let mut outcome = Can {
        nothing: false,
        something: false,
        fails: true,
    };
    let mut index = alternatives.len();
    'alternatives: while index > 0 {
        index -= 1;
        outcome = or_else(alternatives[index], outcome);
    }
    outcome
}
