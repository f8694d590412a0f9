//! Expressions that differ in their places alone.
ghost use Rattle.std.specs.Prelude.{◌≡◌, map, IsTrue};
ghost use Rattle.peg_grammar.specs.Written.{form_of};
ghost use Rattle.peg_semantics.specs.Form.{forms};
ghost use Rattle.peg_lint.specs.WithoutExtents.{all_without_extents, without_extents};

use peg_grammar::Expr;

/// Returns whether two expressions are the same but for their spans. Recurses as deep as they nest; takes time linear
/// in the smaller one.
#[cycle(same)]
pub(crate) fn is_same(one: &Expr, other: &Expr) -> bool
    ensures { IsTrue result → without_extents (form_of one.now) ≡ without_extents (form_of other.now) }
{
    match (one, other) {
        (Expr::Literal { bytes: a, .. }, Expr::Literal { bytes: b, .. }) => {
            a.as_slice() == b.as_slice()
        }
        (Expr::Class { set: a, .. }, Expr::Class { set: b, .. }) => a == b,
        (Expr::Any { .. }, Expr::Any { .. }) => true,
        (Expr::Name { name: a, .. }, Expr::Name { name: b, .. }) => a.as_str() == b.as_str(),
        (Expr::Seq { items: a, .. }, Expr::Seq { items: b, .. }) => are_same(a, b),
        (
            Expr::Choice {
                first: a,
                rest: c,
                ..
            },
            Expr::Choice {
                first: b,
                rest: d,
                ..
            },
        ) => is_same(a, b) && are_same(c, d),
        _ => is_same_operator(one, other),
    }
}

// Returns the same for operators.
#[cycle(same)]
fn is_same_operator(one: &Expr, other: &Expr) -> bool
    ensures { IsTrue result → without_extents (form_of one.now) ≡ without_extents (form_of other.now) }
{
    match (one, other) {
        (Expr::Optional { part: a, .. }, Expr::Optional { part: b, .. }) => is_same(a, b),
        (Expr::Star { part: a, .. }, Expr::Star { part: b, .. }) => is_same(a, b),
        (Expr::Plus { part: a, .. }, Expr::Plus { part: b, .. }) => is_same(a, b),
        (
            Expr::Counted {
                part: a,
                min,
                max,
                ..
            },
            Expr::Counted {
                part: b,
                min: other_min,
                max: other_max,
                ..
            },
        ) => min == other_min && max == other_max && is_same(a, b),
        (Expr::And { part: a, .. }, Expr::And { part: b, .. }) => is_same(a, b),
        (Expr::Not { part: a, .. }, Expr::Not { part: b, .. }) => is_same(a, b),
        _ => false,
    }
}

// Returns whether expressions are the same in order, but for their spans.
#[cycle(same)]
fn are_same(ones: &[Expr], others: &[Expr]) -> bool
    ensures { IsTrue result → all_without_extents (forms (map form_of ones.now))
        ≡ all_without_extents (forms (map form_of others.now)) }
{
    if ones.len() != others.len() {
        return false;
    }
    for index in 0..ones.len() {
        if !is_same(&ones[index], &others[index]) {
            return false;
        }
    }
    true
}
