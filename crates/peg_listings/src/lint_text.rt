//! Warnings about a grammar as JSON.
ghost use Rattle.std.specs.Prelude.{◌≡◌, ◌+◌, ◌-◌, ◌≤◌, IfOk, OnOk, codes, map, string_bytes};
ghost use Rattle.serde.specs.Event.{Log};
ghost use Rattle.serde_json.specs.Data.{Members, array, boolean, member, number, object, string, unsigned};
ghost use Rattle.serde_json.specs.Events.{SendsMembers, SendsValue, members_len};
ghost use Rattle.serde_json.specs.View.{items_of};
ghost use Rattle.serde_json.specs.Written.{compact_text};
ghost use Rattle.peg_grammar.specs.GrammarRules.{rules_in};
ghost use Rattle.peg_semantics.specs.Rules.{name_of, names};
ghost use Rattle.peg_lint.specs.FileWarnings.{is_proved};
ghost use Rattle.peg_listings.specs.LintText.{kind_name, lint_data, placed_data, warning_data, with_cause};

use crate::positions::{Position, column, first_position, position_from};
use crate::spans::serialize_span;
use crate::text::text_of;
use peg_bytes::Span;
use peg_grammar::Grammar;
use peg_lint::{Warning, WarningKind};
use peg_tree::serialize_member;
use serde::{Described, Serialize, Serializer};
use std::alloc::{AllocError, Global};

/// Returns the warnings about a grammar as one line of JSON without its line end. `file` is the grammar file, which the
/// spans of the warnings refer to.
///
/// Linear in the file and the warnings if these are in the order of their starts, and in the lengths of the names.
pub fn lint_json(
    alloc: Global,
    file: &[u8],
    grammar: &Grammar,
    warnings: &[Warning],
) -> Result<String, AllocError>
    ensures { IfOk result (λ text. string_bytes text
        ≡ compact_text (lint_data file.now (names (rules_in grammar.now)) warnings.now)) }
{
    text_of(
        alloc,
        &LintObject {
            file,
            grammar,
            warnings,
        },
    )
}

// Warnings, serialized as the list of them.
#[derive(Drop)]
struct LintObject<'a> {
    file: &'a [u8],
    grammar: &'a Grammar,
    warnings: &'a [Warning],
}

impl Described for LintObject<'_> {
    ghost writes = { λ value. SendsValue
        (lint_data value.file.now (names (rules_in value.grammar.now)) value.warnings.now) };
}

impl Serialize for LintObject<'_> {
    fn serialize<S: Serializer>(&self, out: &mut S) -> Result<(), S::Error> {
        out.begin_map(Some(1))?;
        out.key("warnings")?;
        serialize_warnings(self.file, self.grammar, self.warnings, out)?;
        out.end_map()
    }
}

// Serializes the warnings, in order.
fn serialize_warnings<S: Serializer>(
    file: &[u8],
    grammar: &Grammar,
    warnings: &[Warning],
    out: &mut S,
) -> Result<(), S::Error>
    ensures { OnOk result (SendsValue
        (array (items_of (map (warning_data file.now (names (rules_in grammar.now))) warnings.now)))
        (S.written out.old) (S.written out.new)) }
{
    out.begin_seq(Some(warnings.len()))?;
    let mut position = first_position();
    for warning in warnings {
        position = position_from(file, position, warning.span.start);
        serialize_warning(position, name_of_rule(grammar, warning.rule), warning, out)?;
    }
    out.end_seq()
}

// Serializes a warning that starts at this position, about a rule with this name.
fn serialize_warning<S: Serializer>(
    position: Position,
    rule: &str,
    warning: &Warning,
    out: &mut S,
) -> Result<(), S::Error>
    requires { position.start ≤ position.at }
    ensures { OnOk result (SendsValue
        (placed_data position.line (1 + (position.at - position.start)) rule.now warning.now)
        (S.written out.old) (S.written out.new)) }
{
    begin_warning(warning.by, out)?;
    serialize_place(position, warning, out)?;
    serialize_rule(rule, warning, out)?;
    out.end_map()
}

// Begins the object of a warning, with the span of its cause first if it has one.
fn begin_warning<S: Serializer>(by: Option<Span>, out: &mut S) -> Result<(), S::Error>
    ensures { OnOk result ((rest : Members) (last : Log) → members_len rest ≡ 7
        → SendsMembers rest (S.written out.new) last
        → SendsValue (object (with_cause by rest)) (S.written out.old) last) }
{
    match by {
        None => out.begin_map(Some(7)),
        Some(span) => {
            out.begin_map(Some(8))?;
            out.key("by")?;
            serialize_span(span, out)
        }
    }
}

// Serializes the members from the column to the line.
fn serialize_place<S: Serializer>(
    position: Position,
    warning: &Warning,
    out: &mut S,
) -> Result<(), S::Error>
    requires { position.start ≤ position.at }
    ensures { OnOk result ((rest : Members) (last : Log) → SendsMembers rest (S.written out.new) last
        → SendsMembers (member (codes "column") (number (unsigned (1 + (position.at - position.start))))
        (member (codes "end") (number (unsigned warning.now.span.end))
        (member (codes "kind") (string (kind_name warning.now.kind))
        (member (codes "line") (number (unsigned position.line)) rest)))) (S.written out.old) last) }
{
    serialize_member("column", &column(position), out)?;
    serialize_member("end", &warning.span.end, out)?;
    serialize_member("kind", &name_of_kind(warning.kind), out)?;
    serialize_member("line", &position.line, out)
}

// Serializes the members from the proof to the start.
fn serialize_rule<S: Serializer>(rule: &str, warning: &Warning, out: &mut S) -> Result<(), S::Error>
    ensures { OnOk result ((rest : Members) (last : Log) → SendsMembers rest (S.written out.new) last
        → SendsMembers (member (codes "proved") (boolean (is_proved warning.now.kind)) (member (codes "rule") (string rule.now)
        (member (codes "start") (number (unsigned warning.now.span.start)) rest))) (S.written out.old) last) }
{
    serialize_member("proved", &warning.kind.is_proved(), out)?;
    serialize_member("rule", &rule, out)?;
    serialize_member("start", &warning.span.start, out)
}

// Returns the name of a rule; an empty one if there is no rule with this number.
fn name_of_rule(grammar: &Grammar, rule: u32) -> &str
    ensures { result.now ≡ name_of (rules_in grammar.now) rule }
{
    if rule < grammar.rules() {
        grammar.rule_name(rule)
    } else {
        ""
    }
}

// Returns the printed name of a kind.
fn name_of_kind(kind: WarningKind) -> &'static str
    ensures { result.now ≡ kind_name kind }
{
    match kind {
        WarningKind::UnusedRule => "UnusedRule",
        WarningKind::NeverMatches => "NeverMatches",
        WarningKind::NeverTried => "NeverTried",
        WarningKind::AlwaysFails => "AlwaysFails",
        WarningKind::NoEffect => "NoEffect",
        WarningKind::SameAlternative => "SameAlternative",
        WarningKind::Shadowed => "Shadowed",
        WarningKind::NeverStops => "NeverStops",
        WarningKind::NeverFollows => "NeverFollows",
        WarningKind::TakesNothing => "TakesNothing",
        WarningKind::ReversedRange => "ReversedRange",
        WarningKind::EmptyAlternative => "EmptyAlternative",
        WarningKind::AnyAtEnd => "AnyAtEnd",
        WarningKind::ClassBeginsWithCaret => "ClassBeginsWithCaret",
        WarningKind::ClassEndsInRange => "ClassEndsInRange",
        WarningKind::RangeOverSigns => "RangeOverSigns",
        WarningKind::HoldsLineEnd => "HoldsLineEnd",
        WarningKind::HighBytesInClass => "HighBytesInClass",
        WarningKind::BlanksInClass => "BlanksInClass",
        WarningKind::RepeatedByte => "RepeatedByte",
    }
}
