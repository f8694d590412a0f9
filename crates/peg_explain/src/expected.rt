//! What is expected at the offset of a mismatch.
ghost use Rattle.std.specs.Prelude.{◌≡◌, ◌^◌, ◌≤◌, ◌<◌, ℕ, All, IfOk, length, map, not};
ghost use Rattle.std.specs.Prelude.{slice_get, slice_index_or, take};
ghost use Rattle.std.specs.List.{list_any};
ghost use Rattle.peg_bytes.specs.Extent.{between, extent};
ghost use Rattle.peg_parser.specs.Fits.{Fits};
ghost use Rattle.peg_parser.specs.Parser.{parser_rules};
ghost use Rattle.peg_semantics.specs.Terminals.{extents_of_terminals};
ghost use Rattle.peg_explain.specs.Expected.{expected_spans, facts_in, numbered_spans, unnamed_fact};
ghost use Rattle.peg_explain.specs.Explanations.{fact_of, is_in_spacing, is_more_expected, is_named_after};
ghost use Rattle.peg_explain.specs.Explanations.{item_numbered, item_wording};
ghost use Rattle.peg_explain.specs.Names.{is_class_or_dot, is_part};
ghost use Rattle.peg_explain.specs.Parts.{has_part};

use crate::mismatch::{ExpectedItem, Wording};
use crate::names::{Rest, is_flagged, stands_for};
use crate::outcomes::{are_items_expected, is_end_expected};
use crate::parts::Parts;
use peg_bytes::Span;
use peg_diagnostics::ItemKind;
use peg_parser::Parser;
use peg_tree::Outcome;
use std::alloc::{AllocError, Global};

// The most items that a message looks at.
const MAX_ITEMS: usize = 65_536;

/// The items of a grammar file: the span, the rule and the kind of each, and the rules that are left out as spacing.
#[derive(Clone, Copy)]
pub(crate) struct Items<'a> {
    pub(crate) spans: &'a [Span],
    pub(crate) rules: &'a [u32],
    pub(crate) kinds: &'a [ItemKind],
    pub(crate) spacing: &'a [bool],
}

/// Returns the items of the furthest failure. Items in spacing and the parts of rules that fail at once are left out.
/// Another class or dot is named after its rule if the rule stands for it.
pub(crate) fn items_of_failure(
    alloc: Global,
    items: &Items<'_>,
    rests: &[Rest],
    outcome: &Outcome,
) -> Result<Vec<ExpectedItem>, AllocError>
    ensures items { IfOk result (λ list. map fact_of list.items
        ≡ map (item_numbered (facts_in items.now rests.now)) (take 65536 outcome.now.expected.items)) }
    ensures few { IfOk result (λ list. length list.items ≤ 65536) }
{
    let parts = Parts::of_rests(alloc, rests, items.spans.len())?;
    let numbers = first_numbers(&outcome.expected, MAX_ITEMS);
    listed_items(alloc, items, rests, &parts, numbers)
}

// Returns the items with these numbers.
fn listed_items(
    alloc: Global,
    items: &Items<'_>,
    rests: &[Rest],
    parts: &Parts,
    numbers: &[u32],
) -> Result<Vec<ExpectedItem>, AllocError>
    requires { (item : ℕ) → has_part parts.now item ≡ is_part rests.now (length items.now.spans.now) item }
    ensures items { IfOk result (λ list. map fact_of list.items
        ≡ map (item_numbered (facts_in items.now rests.now)) numbers.now) }
    ensures count { IfOk result (λ list. length list.items ≡ length numbers.now) }
{
    let mut list = Vec::new(alloc);
    'numbers: for number in numbers {
        list.push(item_at(items, rests, parts, *number))?;
    }
    Ok(list)
}

// Returns the item with a number.
fn item_at(items: &Items<'_>, rests: &[Rest], parts: &Parts, number: u32) -> ExpectedItem
    requires { (item : ℕ) → has_part parts.now item ≡ is_part rests.now (length items.now.spans.now) item }
    ensures { fact_of result ≡ item_numbered (facts_in items.now rests.now) number }
{
    let span = span_at(items.spans, number);
    let rule = items.rules.get(number as usize).copied();
    let wording = item_wording(items, rests, parts, number);
    ExpectedItem {
        span,
        rule,
        wording,
    }
}

// Returns how an item is written.
fn item_wording(items: &Items<'_>, rests: &[Rest], parts: &Parts, number: u32) -> Wording
    requires { (item : ℕ) → has_part parts.now item ≡ is_part rests.now (length items.now.spans.now) item }
    ensures { result ≡ item_wording (facts_in items.now rests.now) number }
{
    let rule = items.rules.get(number as usize).copied();
    if is_in_spacing(items.spacing, rule) {
        return Wording::LeftOut;
    }
    if parts.contains(number) {
        return Wording::LeftOut;
    }
    if is_class_or_dot(items.kinds, number) && is_named_after(rests, rule, number) {
        Wording::RuleName
    } else {
        Wording::Spelling
    }
}

// Returns whether the rule of an item is known and is left out as spacing.
fn is_in_spacing(spacing: &[bool], rule: Option<u32>) -> bool
    ensures { result ≡ is_in_spacing spacing.now rule }
{
    match rule {
        Some(rule) => is_flagged(spacing, rule),
        None => false,
    }
}

/// Returns whether the end of the text is expected, or one of the items that a message looks at is in no rule that is
/// spacing.
pub(crate) fn is_more_expected(spacing: &[bool], rules: &[u32], outcome: &Outcome) -> bool
    ensures { result ≡ is_more_expected spacing.now rules.now outcome.now }
{
    is_end_expected(outcome)
        || has_other_items(spacing, rules, first_numbers(&outcome.expected, MAX_ITEMS))
}

// Returns whether one of these items is in no rule that is spacing.
fn has_other_items(spacing: &[bool], rules: &[u32], items: &[u32]) -> bool
    ensures { result ≡ list_any (λ item. not (is_in_spacing spacing.now (slice_get rules.now item))) items.now }
{
    items
        .iter()
        .any(|item| !is_item_in_spacing(spacing, rules, *item))
}

// Returns whether the rule of an item is left out as spacing, given the rules of all items.
fn is_item_in_spacing(spacing: &[bool], rules: &[u32], item: u32) -> bool
    ensures { result ≡ is_in_spacing spacing.now (slice_get rules.now item) }
{
    is_in_spacing(spacing, rules.get(item as usize).copied())
}

// Returns whether the rule of an item is known and stands for it.
fn is_named_after(rests: &[Rest], rule: Option<u32>, number: u32) -> bool
    ensures { result ≡ is_named_after rests.now rule number }
{
    match rule {
        Some(rule) => stands_for(rests, rule, number),
        None => false,
    }
}

// Returns whether the item with a number is a class or a dot, given the kinds of items.
fn is_class_or_dot(kinds: &[ItemKind], number: u32) -> bool
    ensures { result ≡ is_class_or_dot kinds.now number }
{
    match kinds.get(number as usize) {
        Some(ItemKind::Byte) => true,
        _ => false,
    }
}

/// Returns the span of an item; an empty one if there is no item with this number.
pub(crate) fn span_at(items: &[Span], number: u32) -> Span
    ensures { extent result ≡ slice_index_or (map extent items.now) number (between 0 0) }
{
    match items.get(number as usize) {
        Some(span) => *span,
        None => Span::new(0, 0),
    }
}

/// Returns the spans of the expected terminals.
pub(crate) fn spans_of_terminals(
    alloc: Global,
    parser: &Parser,
    outcome: &Outcome,
) -> Result<Vec<Span>, AllocError>
    requires { Fits (parser_rules parser.now) outcome.now }
    ensures spans { IfOk result (λ spans. map extent spans.items
        ≡ expected_spans (extents_of_terminals (parser_rules parser.now)) outcome.now) }
    ensures few { IfOk result (λ spans. length spans.items < 2 ^ 32) }
{
    if !are_items_expected(outcome) {
        return Ok(Vec::new(alloc));
    }
    listed_terminals(alloc, parser, first_numbers(&outcome.expected, MAX_ITEMS))
}

// Returns the spans of the terminals with these numbers.
fn listed_terminals(
    alloc: Global,
    parser: &Parser,
    numbers: &[u32],
) -> Result<Vec<Span>, AllocError>
    requires { All (λ terminal. terminal < length (extents_of_terminals (parser_rules parser.now))) numbers.now }
    ensures spans { IfOk result (λ spans. map extent spans.items
        ≡ numbered_spans (extents_of_terminals (parser_rules parser.now)) numbers.now) }
    ensures count { IfOk result (λ spans. length spans.items ≡ length numbers.now) }
{
    let mut spans = Vec::new(alloc);
    'numbers: for number in numbers {
        spans.push(parser.terminal_span(*number))?;
    }
    Ok(spans)
}

/// Returns the first numbers, at most this many.
pub(crate) fn first_numbers(numbers: &[u32], most: usize) -> &[u32]
    ensures first { result.now ≡ take most numbers.now }
    ensures few { length result.now ≤ most }
{
    if numbers.len() <= most {
        return numbers;
    }
    &numbers[..most]
}

/// Returns items with these spans, whose rules aren't known.
pub(crate) fn unnamed_items(alloc: Global, spans: &[Span]) -> Result<Vec<ExpectedItem>, AllocError>
    ensures items { IfOk result (λ list. map fact_of list.items ≡ map (λ span. unnamed_fact (extent span)) spans.now) }
    ensures count { IfOk result (λ list. length list.items ≡ length spans.now) }
{
    let mut list = Vec::new(alloc);
    'spans: for span in spans {
        list.push(ExpectedItem {
            span: *span,
            rule: None,
            wording: Wording::Spelling,
        })?;
    }
    Ok(list)
}
