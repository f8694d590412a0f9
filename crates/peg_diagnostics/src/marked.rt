//! The marked grammar of a grammar.
ghost use Rattle.std.specs.Prelude.{◌≡◌, ◌+◌, ◌^◌, ◌<◌, ◌++◌, length, map, slice_get, IfErr, IfOk, OnOk, Some};
ghost use Rattle.peg_bytes.specs.Extent.{extent};
ghost use Rattle.peg_diagnostics.specs.Diagnostic.{HaveNoMark};
ghost use Rattle.peg_diagnostics.specs.Marked.{alternatives, doubled, mark, mark_rules, marked_rules, marker_rule};
ghost use Rattle.peg_diagnostics.specs.Marked.{marker_rules, with_body, with_end};
ghost use Rattle.peg_diagnostics.specs.Refusal.{IsMemoryOrTooMany};
ghost use Rattle.peg_grammar.specs.GrammarRules.{rules_in};
ghost use Rattle.peg_grammar.specs.Refusal.{IsRefusedBy};
ghost use Rattle.peg_grammar.specs.Written.{form_of, rule_of, rules_of};
ghost use Rattle.peg_semantics.specs.Rules.{Rule};

use crate::alternatives::alternative_spans;
use crate::builders::seq;
use crate::marking::{expression_with_end, marked_expression, name_of_marker};
use peg_bytes::Span;
use peg_grammar::{Definition, Expr, Grammar, GrammarFault};
use std::alloc::{AllocError, Global};

/// Returns the marked grammar of a grammar. A marker is a rule of its own, which matches the empty string. Each
/// alternative of a choice is between calls of two markers. The expression of each rule is before the call of one. The
/// rules come first, in order. Then come the markers: two for each alternative in written order, and one for each rule.
///
/// So the calls of markers show which alternatives are tried, and which alternatives and rules match, in predicates
/// too.
///
/// Linear in the weight, except for hashing. Returns `TooManyParts` if the weight of the result is over `MAX_PARTS`,
/// and `Memory` if an allocation fails. If a rule has a name with a `!`, it can also return `Duplicate`.
///
/// # Example
///
/// ```
/// let grammar = Grammar::new(alloc, read(alloc, b"S <- 'a' / 'b' S")?)?;
/// let marked = marked_grammar(alloc, &grammar)?;
/// assert_eq!((marked.rules(), marked.rule_name(2)), (6, "!1"));
/// ```
pub fn marked_grammar(alloc: Global, grammar: &Grammar) -> Result<Grammar, GrammarFault>
    ensures rules { IfOk result (λ g. rules_in g ≡ marked_rules (rules_in grammar.now)) }
    ensures refused { IfErr result (IsRefusedBy (marked_rules (rules_in grammar.now))) }
    ensures plain { HaveNoMark (rules_in grammar.now) → IfErr result IsMemoryOrTooMany }
{
    let mut definitions = Vec::new(alloc);
    add_definitions(alloc, grammar, &mut definitions)?;
    Grammar::new(alloc, definitions)
}

// Appends the definitions of the marked grammar.
fn add_definitions(
    alloc: Global,
    grammar: &Grammar,
    definitions: &mut Vec<Definition>,
) -> Result<(), AllocError>
    ensures { OnOk result (rules_of definitions.new.items
        ≡ rules_of definitions.old.items ++ marked_rules (rules_in grammar.now)) }
{
    let alternatives = alternative_spans(alloc, grammar)?;
    let spans = marker_spans(alloc, grammar, &alternatives)?;
    add_marked_rules(alloc, grammar, 2 * alternatives.len() as u32, definitions)?;
    add_markers(alloc, &spans, definitions)?;
    Ok(())
}

// Returns the spans of the markers of alternatives with these spans, and of the rules.
fn marker_spans(
    alloc: Global,
    grammar: &Grammar,
    alternatives: &[Span],
) -> Result<Vec<Span>, AllocError>
    ensures { IfOk result (λ spans. map extent spans.items
        ≡ doubled (map extent alternatives.now) ++ map (λ (rule : Rule). rule.span) (rules_in grammar.now)) }
{
    let mut spans = Vec::new(alloc);
    add_twice(alternatives, &mut spans)?;
    add_name_spans(grammar, &mut spans)?;
    Ok(spans)
}

// Appends each span two times.
fn add_twice(alternatives: &[Span], spans: &mut Vec<Span>) -> Result<(), AllocError>
    ensures { OnOk result (map extent spans.new.items
        ≡ map extent spans.old.items ++ doubled (map extent alternatives.now)) }
{
    'alternatives: for span in alternatives {
        spans.push(*span)?;
        spans.push(*span)?;
    }
    Ok(())
}

// Appends the spans of the names of rules.
fn add_name_spans(grammar: &Grammar, spans: &mut Vec<Span>) -> Result<(), AllocError>
    ensures { OnOk result (map extent spans.new.items
        ≡ map extent spans.old.items ++ map (λ (rule : Rule). rule.span) (rules_in grammar.now)) }
{
    'rules: for rule in 0..grammar.rules() {
        spans.push(grammar.name_span(rule))?;
    }
    Ok(())
}

// Appends the rules with their alternatives marked, each before a marker of its own.
fn add_marked_rules(
    alloc: Global,
    grammar: &Grammar,
    first_marker: u32,
    definitions: &mut Vec<Definition>,
) -> Result<(), AllocError>
    requires { first_marker + length (rules_in grammar.now) < 2 ^ 32 }
    ensures { OnOk result (rules_of definitions.new.items
        ≡ rules_of definitions.old.items ++ mark_rules 0 first_marker (rules_in grammar.now)) }
{
    let mut next = 0;
    let mut marker = first_marker;
    for rule in 0..grammar.rules() {
        definitions.push(marked_rule(alloc, grammar, rule, marker, &mut next)?)?;
        marker += 1;
    }
    Ok(())
}

// Returns a rule with its alternatives marked, before a marker of its own, and counts the alternatives.
fn marked_rule(
    alloc: Global,
    grammar: &Grammar,
    rule: u32,
    marker: u32,
    next: &mut u32,
) -> Result<Definition, AllocError>
    requires rule { rule < length (rules_in grammar.now) }
    requires few { (r : Rule) → slice_get (rules_in grammar.now) rule ≡ Some r
        → next.old + alternatives r.body < 2 ^ 31 }
    ensures marked { IfOk result (λ definition. (r : Rule) → slice_get (rules_in grammar.now) rule ≡ Some r
        → rule_of definition ≡ with_body r (with_end marker r.span (mark next.old r.body))) }
    ensures next { OnOk result ((r : Rule) → slice_get (rules_in grammar.now) rule ≡ Some r
        → next.new ≡ next.old + alternatives r.body) }
{
    let body = marked_expression(alloc, grammar.body(rule), next)?;
    let body = expression_with_end(alloc, marker, grammar.name_span(rule), body)?;
    definition_with(alloc, grammar, rule, Box::into_inner(body))
}

// Returns a rule with another expression.
fn definition_with(
    alloc: Global,
    grammar: &Grammar,
    rule: u32,
    body: Expr,
) -> Result<Definition, AllocError>
    requires { rule < length (rules_in grammar.now) }
    ensures { IfOk result (λ definition. (r : Rule) → slice_get (rules_in grammar.now) rule ≡ Some r
        → rule_of definition ≡ with_body r (form_of body)) }
{
    Ok(Definition {
        name: String::from_str(alloc, grammar.rule_name(rule))?,
        span: grammar.name_span(rule),
        body,
    })
}

// Appends the markers with these spans.
fn add_markers(
    alloc: Global,
    spans: &[Span],
    definitions: &mut Vec<Definition>,
) -> Result<(), AllocError>
    requires { length spans.now < 2 ^ 32 }
    ensures { OnOk result (rules_of definitions.new.items
        ≡ rules_of definitions.old.items ++ marker_rules 0 (map extent spans.now)) }
{
    let mut marker = 0;
    'spans: for span in spans {
        definitions.push(marker_definition(alloc, marker, *span)?)?;
        marker += 1;
    }
    Ok(())
}

// Returns a marker.
fn marker_definition(alloc: Global, marker: u32, span: Span) -> Result<Definition, AllocError>
    ensures { IfOk result (λ definition. rule_of definition ≡ marker_rule marker (extent span)) }
{
    Ok(Definition {
        name: name_of_marker(alloc, marker)?,
        span,
        body: Box::into_inner(seq(alloc, Vec::new(alloc), span)?),
    })
}
