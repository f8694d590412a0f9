//! Alternatives that are the same as an earlier one.
ghost use Rattle.std.specs.Prelude.{◌≡◌, ◌∷◌, ◌≤◌, List, All, Some, length, map, slice_get, IfOk, OnOk};
ghost use Rattle.peg_bytes.specs.Extent.{Extent};
ghost use Rattle.peg_grammar.specs.Written.{form_of};
ghost use Rattle.peg_semantics.specs.Form.{Choice, forms};
ghost use Rattle.peg_semantics.specs.Rules.{Rule};
ghost use Rattle.peg_lint.specs.Linting.{KeepsTrue};
ghost use Rattle.peg_lint.specs.Warnings.{IsPartOfRule};

use crate::digest::digest_of;
use crate::expressions::span_of;
use crate::same::is_same;
use crate::{Warning, WarningKind};
use peg_grammar::Expr;
use std::alloc::{AllocError, Global};

// An alternative of a choice by its number from 0, with its digest.
#[derive(Clone, Copy)]
struct Alternative {
    number: usize,
    digest: u64,
}

/// Returns the alternative of a choice with a number from 0. Takes constant time.
pub(crate) fn alternative_at<'a>(first: &'a Expr, rest: &'a [Expr], number: usize) -> &'a Expr
    requires { number ≤ length rest.now }
    ensures { slice_get (first.now ∷ rest.now) number ≡ Some result.now }
{
    if number == 0 {
        first
    } else {
        &rest[number - 1]
    }
}

// Returns the alternatives of a choice in the order of their digests, and equal ones in written order.
fn by_digest(alloc: Global, first: &Expr, rest: &[Expr]) -> Result<Vec<Alternative>, AllocError>
    ensures { IfOk result (λ all. All (λ one. one.number ≤ length rest.now) all.items) }
{
    let mut all = Vec::new(alloc);
    all.push(Alternative {
        number: 0,
        digest: digest_of(first),
    })?;
    'rest: for index in 0..rest.len() {
        all.push(Alternative {
            number: index + 1,
            digest: digest_of(&rest[index]),
        })?;
    }
    all.sort_by_key(|one| one.digest)?;
    Ok(all)
}

// Adds a warning if one alternative comes before another that is the same but for its span.
fn add_if_same(
    rule: u32,
    first: &Expr,
    rest: &[Expr],
    one: Alternative,
    other: Alternative,
    found: &mut Vec<Warning>,
) -> Result<(), AllocError>
    requires one { one.number ≤ length rest.now }
    requires other { other.number ≤ length rest.now }
    ensures { OnOk result ((rules : List Rule) (span : Extent)
        → IsPartOfRule rules rule (Choice (form_of first.now) (forms (map form_of rest.now)) span)
        → KeepsTrue rules found.old.items found.new.items) }
{
    if one.digest != other.digest {
        return Ok(());
    }
    if one.number >= other.number {
        return Ok(());
    }
    let earlier = alternative_at(first, rest, one.number);
    let later = alternative_at(first, rest, other.number);
    if !is_same(earlier, later) {
        return Ok(());
    }
    found.push(Warning {
        kind: WarningKind::SameAlternative,
        rule,
        span: span_of(later),
        by: Some(span_of(earlier)),
    })?;
    Ok(())
}

/// Adds a warning for each alternative of a choice that is the same as an earlier one but for its span. Compares each
/// alternative with one other of the same digest, so this takes time linear in the choice, apart from sorting.
#[inline(never)]
pub(crate) fn add_same_alternatives(
    alloc: Global,
    rule: u32,
    first: &Expr,
    rest: &[Expr],
    found: &mut Vec<Warning>,
) -> Result<(), AllocError>
    ensures { OnOk result ((rules : List Rule) (span : Extent)
        → IsPartOfRule rules rule (Choice (form_of first.now) (forms (map form_of rest.now)) span)
        → KeepsTrue rules found.old.items found.new.items) }
{
    let all = by_digest(alloc, first, rest)?;
    'alternatives: for index in 1..all.len() {
        add_if_same(rule, first, rest, all[index - 1], all[index], found)?;
    }
    Ok(())
}
