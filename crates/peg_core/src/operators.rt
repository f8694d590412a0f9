//! Core forms of single operators.
ghost use Rattle.std.specs.Prelude.{◌≡◌, ◌+◌, ◌<◌, ◌≤◌, [], ◌∷◌, length, IfOk};
ghost use Rattle.peg_bytes.specs.ByteSet.{all_bytes, bytes_of};
ghost use Rattle.peg_bytes.specs.Extent.{extent};
ghost use Rattle.peg_core.specs.CoreForm.{Empty, Rule, Seq, Choice, Star, Not, Test, count_form, left_out, unfolded};
ghost use Rattle.peg_core.specs.CoreParts.{optional_forms, plus_forms, count_forms, rounds_of, and_forms};
ghost use Rattle.peg_core.specs.Appending.{Appends};
ghost use Rattle.peg_core.specs.Layout.{form_at, max_forms, max_forms_each};
ghost use Rattle.peg_semantics.specs.Grammar.{max_parts};

use crate::Node;
use crate::builder::CoreBuilder;
use peg_bytes::{ByteSet, Span};
use std::alloc::AllocError;

// The span of a node that is no star.
fn no_origin() -> Span {
    Span::new(0, 0)
}

/// Adds the part or the empty form: `e / ''`.
#[inline(never)]
pub(crate) fn add_optional(part: u32, builder: &mut CoreBuilder) -> Result<u32, AllocError>
    requires room { length builder.old.forms + 2 ≤ max_forms }
    requires part { part < length builder.old.forms }
    ensures { IfOk result (λ number. Appends builder.old (optional_forms (form_at builder.old.forms part)) []
        (Choice (form_at builder.old.forms part) Empty) number builder.new) }
{
    let empty = builder.push(Node::Empty, no_origin())?;
    builder.push(Node::Choice(part, empty), no_origin())
}

/// Adds the star of a part.
#[inline(never)]
pub(crate) fn add_star(
    part: u32,
    builder: &mut CoreBuilder,
    origin: Span,
) -> Result<u32, AllocError>
    requires room { length builder.old.forms + 1 ≤ max_forms }
    requires part { part < length builder.old.forms }
    ensures { IfOk result (λ number. Appends builder.old (Star (form_at builder.old.forms part) (extent origin) ∷ []) []
        (Star (form_at builder.old.forms part) (extent origin)) number builder.new) }
{
    builder.push(Node::Star(part), origin)
}

/// Adds the part and then its star: `e e*`.
#[inline(never)]
pub(crate) fn add_plus(
    part: u32,
    builder: &mut CoreBuilder,
    origin: Span,
) -> Result<u32, AllocError>
    requires room { length builder.old.forms + 2 ≤ max_forms }
    requires part { part < length builder.old.forms }
    ensures { IfOk result (λ number. Appends builder.old (plus_forms (form_at builder.old.forms part)
        (extent origin)) []
        (Seq (form_at builder.old.forms part) (Star (form_at builder.old.forms part)
        (extent origin))) number builder.new) }
{
    let star = builder.push(Node::Star(part), origin)?;
    builder.push(Node::Seq(part, star), no_origin())
}

/// Adds the part at least `min` and at most `max` times. If the part is built of empty expressions alone, the
/// iterations after the first that must match are left out. If `max` is 0, the part is an alternative that is never
/// tried, so that it is checked all the same.
#[inline(never)]
pub(crate) fn add_count(
    part: u32,
    builder: &mut CoreBuilder,
    min: u8,
    max: u8,
) -> Result<u32, AllocError>
    requires room { length builder.old.forms + max_forms_each ≤ max_forms }
    requires part { part < length builder.old.forms }
    ensures { IfOk result (λ number. Appends builder.old (count_forms (form_at builder.old.forms part) min max) []
        (count_form (form_at builder.old.forms part) min max) number builder.new) }
{
    if max == 0 {
        return add_untried(part, builder);
    }
    let left_out = iterations_left_out(part, builder, min);
    let most = (max - 1).saturating_sub(left_out) + 1;
    add_iterations(part, builder, min - left_out, most)
}

// How many iterations of a count are left out.
fn iterations_left_out(part: u32, builder: &CoreBuilder, min: u8) -> u8
    requires { part < length builder.now.forms }
    ensures count { result ≡ left_out (form_at builder.now.forms part) min }
    ensures fewer { result ≤ min }
{
    if builder.is_all_empty(part) {
        min.saturating_sub(1)
    } else {
        0
    }
}

// Adds the empty form or the part: `'' / e`. The part is never tried.
fn add_untried(part: u32, builder: &mut CoreBuilder) -> Result<u32, AllocError>
    requires room { length builder.old.forms + 2 ≤ max_forms }
    requires part { part < length builder.old.forms }
    ensures { IfOk result (λ number. Appends builder.old (Empty ∷ Choice Empty (form_at builder.old.forms part) ∷ []) []
        (Choice Empty (form_at builder.old.forms part)) number builder.new) }
{
    let nothing = builder.push(Node::Empty, no_origin())?;
    builder.push(Node::Choice(nothing, part), no_origin())
}

// Adds the iterations of a count, nested to the right. The innermost one is added first.
fn add_iterations(part: u32, builder: &mut CoreBuilder, min: u8, max: u8) -> Result<u32, AllocError>
    requires room { length builder.old.forms + max_forms_each ≤ max_forms }
    requires part { part < length builder.old.forms }
    ensures { IfOk result (λ number. Appends builder.old (Empty ∷ rounds_of (form_at builder.old.forms part) min max) []
        (unfolded (form_at builder.old.forms part) min max) number builder.new) }
{
    let nothing = builder.push(Node::Empty, no_origin())?;
    let optional = max.saturating_sub(min);
    let mut rest = nothing;
    for done in 0..max {
        rest = builder.push(Node::Seq(part, rest), no_origin())?;
        if done < optional {
            rest = builder.push(Node::Choice(rest, nothing), no_origin())?;
        }
    }
    Ok(rest)
}

/// Adds the and-predicate of a part: `!(!e)`.
#[inline(never)]
pub(crate) fn add_and(part: u32, builder: &mut CoreBuilder) -> Result<u32, AllocError>
    requires room { length builder.old.forms + 2 ≤ max_forms }
    requires part { part < length builder.old.forms }
    ensures { IfOk result (λ number. Appends builder.old (and_forms (form_at builder.old.forms part)) []
        (Not (Not (form_at builder.old.forms part))) number builder.new) }
{
    let not = builder.push(Node::Not(part), no_origin())?;
    builder.push(Node::Not(not), no_origin())
}

/// Adds the not-predicate of a part.
#[inline(never)]
pub(crate) fn add_not(part: u32, builder: &mut CoreBuilder) -> Result<u32, AllocError>
    requires room { length builder.old.forms + 1 ≤ max_forms }
    requires part { part < length builder.old.forms }
    ensures { IfOk result (λ number. Appends builder.old (Not (form_at builder.old.forms part) ∷ []) []
        (Not (form_at builder.old.forms part)) number builder.new) }
{
    builder.push(Node::Not(part), no_origin())
}

/// Adds a call of a rule.
#[inline(never)]
pub(crate) fn add_call(builder: &mut CoreBuilder, rule: u32) -> Result<u32, AllocError>
    requires room { length builder.old.forms + 1 ≤ max_forms }
    requires rule { rule < builder.old.rules }
    ensures { IfOk result (λ number. Appends builder.old (Rule rule ∷ []) [] (Rule rule) number builder.new) }
{
    builder.push(Node::Rule(rule), no_origin())
}

/// Adds a class: one test, of the next terminal.
#[inline(never)]
pub(crate) fn add_class(
    builder: &mut CoreBuilder,
    set: ByteSet,
    span: Span,
) -> Result<u32, AllocError>
    requires room { length builder.old.forms + 1 ≤ max_forms }
    requires few { length builder.old.spans + 1 ≤ max_parts }
    ensures { IfOk result (λ number. Appends builder.old (Test (bytes_of set) (length builder.old.spans) ∷ [])
        (extent span ∷ []) (Test (bytes_of set) (length builder.old.spans)) number builder.new) }
{
    let terminal = builder.terminal(span)?;
    builder.push(Node::Test { set, terminal }, no_origin())
}

/// Adds a dot: one test of any byte, of the next terminal.
#[inline(never)]
pub(crate) fn add_any(builder: &mut CoreBuilder, span: Span) -> Result<u32, AllocError>
    requires room { length builder.old.forms + 1 ≤ max_forms }
    requires few { length builder.old.spans + 1 ≤ max_parts }
    ensures { IfOk result (λ number. Appends builder.old (Test all_bytes (length builder.old.spans) ∷ [])
        (extent span ∷ []) (Test all_bytes (length builder.old.spans)) number builder.new) }
{
    add_class(builder, ByteSet::full(), span)
}
