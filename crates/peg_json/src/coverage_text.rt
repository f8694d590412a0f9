//! What texts use of a grammar as JSON.
ghost use Rattle.std.specs.Prelude.{◌≡◌, ◌+◌, ◌-◌, ◌<◌, ◌≤◌, All, IfOk, OnOk, codes, length, map, string_bytes, suc};
ghost use Rattle.std.proofs.Props.{props};
ghost use Rattle.serde.specs.Event.{Log};
ghost use Rattle.serde_json.specs.Data.{Members, array, member, number, unsigned};
ghost use Rattle.serde_json.specs.Events.{SendsMembers, SendsValue, members_len};
ghost use Rattle.serde_json.specs.View.{items_of};
ghost use Rattle.serde_json.specs.Written.{compact_text};
ghost use Rattle.peg_coverage.specs.Unused.{alternative_use, rule_use};
ghost use Rattle.peg_coverage.specs.declared.coverage.UnusedRule.{UnusedRule};
ghost use Rattle.peg_grammar.specs.GrammarRules.{rules_in};
ghost use Rattle.peg_json.specs.CoverageText.{alternative_data, coverage_data, named_use, placed_alternative, placed_rule};
ghost use Rattle.peg_json.specs.CoverageText.{unused_rule_data, with_stopped};

use peg_coverage::{Coverage, UnusedAlternative, UnusedRule};
use peg_grammar::Grammar;
use peg_listings::{Position, column, first_position, position_from, text_of};
use peg_tree::serialize_member;
use serde::{Described, Serialize, Serializer};
use std::alloc::{AllocError, Global};

/// Returns what texts use of a grammar as one line of JSON without its line end. `file` is the grammar file. Each
/// unused rule must be one of the grammar.
///
/// Linear in the file, the unused rules and alternatives, and the lengths of the names.
pub fn coverage_json(
    alloc: Global,
    file: &[u8],
    grammar: &Grammar,
    coverage: &Coverage,
) -> Result<String, AllocError>
    requires { All (λ (unused : UnusedRule). unused.rule < length (rules_in grammar.now))
        coverage.now.unused_rules.items }
    ensures { IfOk result (λ text. string_bytes text ≡ compact_text (coverage_data file.now coverage.now.texts
        coverage.now.matched coverage.now.stopped.items
        (map (named_use (rules_in grammar.now)) (map rule_use coverage.now.unused_rules.items))
        (map alternative_use coverage.now.unused_alternatives.items))) }
{
    text_of(
        alloc,
        &CoverageObject {
            file,
            grammar,
            texts: coverage.texts,
            matched: coverage.matched,
            stopped: &coverage.stopped,
            rules: &coverage.unused_rules,
            alternatives: &coverage.unused_alternatives,
        },
    )
}

// What texts use, serialized as the counts of texts and the lists of what is unused.
#[derive(Drop)]
struct CoverageObject<'a> {
    file: &'a [u8],
    grammar: &'a Grammar,
    texts: u64,
    matched: u64,
    stopped: &'a [usize],
    rules: &'a [UnusedRule],
    alternatives: &'a [UnusedAlternative],
    ghost below: { All (λ (unused : UnusedRule). unused.rule < length (rules_in grammar.now)) rules.now } by { Prim.hlevel props },
}

impl Described for CoverageObject<'_> {
    ghost writes = { λ value. SendsValue
        (coverage_data value.file.now value.texts value.matched value.stopped.now
        (map (named_use (rules_in value.grammar.now)) (map rule_use value.rules.now))
        (map alternative_use value.alternatives.now)) };
}

impl Serialize for CoverageObject<'_> {
    fn serialize<S: Serializer>(&self, out: &mut S) -> Result<(), S::Error> {
        out.begin_map(Some(member_count(self.stopped)))?;
        serialize_member("matched", &self.matched, out)?;
        serialize_stopped(self.stopped, out)?;
        serialize_member("texts", &self.texts, out)?;
        out.key("unused_alternatives")?;
        serialize_alternatives(self.file, self.alternatives, out)?;
        out.key("unused_rules")?;
        serialize_rules(self.file, self.grammar, self.rules, out)?;
        out.end_map()
    }
}

// The number of members: all of them, or all but the number of stopped texts.
fn member_count(stopped: &[usize]) -> usize
    ensures { (rest : Members) → members_len rest ≡ 3
        → result ≡ suc (members_len (with_stopped stopped.now rest)) }
{
    if stopped.is_empty() { 4 } else { 5 }
}

// Serializes the number of stopped texts, if there are any.
fn serialize_stopped<S: Serializer>(stopped: &[usize], out: &mut S) -> Result<(), S::Error>
    ensures { OnOk result ((rest : Members) (last : Log) → SendsMembers rest (S.written out.new) last
        → SendsMembers (with_stopped stopped.now rest) (S.written out.old) last) }
{
    if stopped.is_empty() {
        return Ok(());
    }
    let count = stopped.len() as u64;
    serialize_member("stopped", &count, out)
}

// Serializes the places of alternatives, in order, with whether they are tried.
fn serialize_alternatives<S: Serializer>(
    file: &[u8],
    alternatives: &[UnusedAlternative],
    out: &mut S,
) -> Result<(), S::Error>
    ensures { OnOk result (SendsValue
        (array (items_of (map (alternative_data file.now) (map alternative_use alternatives.now))))
        (S.written out.old) (S.written out.new)) }
{
    out.begin_seq(Some(alternatives.len()))?;
    let mut position = first_position();
    for unused in alternatives {
        position = position_from(file, position, unused.span.start);
        serialize_alternative(position, unused.span.end, unused.tried, out)?;
    }
    out.end_seq()
}

// Serializes the place of an alternative, from this position to an end, and whether it is tried.
fn serialize_alternative<S: Serializer>(
    position: Position,
    end: u32,
    tried: bool,
    out: &mut S,
) -> Result<(), S::Error>
    requires { position.start ≤ position.at }
    ensures { OnOk result (SendsValue
        (placed_alternative position.line (1 + (position.at - position.start)) position.at end tried)
        (S.written out.old) (S.written out.new)) }
{
    out.begin_map(Some(5))?;
    serialize_place(position, end, out)?;
    serialize_member("start", &position.at, out)?;
    serialize_member("tried", &tried, out)?;
    out.end_map()
}

// Serializes the names and places of rules, in order, with whether they are tried.
fn serialize_rules<S: Serializer>(
    file: &[u8],
    grammar: &Grammar,
    rules: &[UnusedRule],
    out: &mut S,
) -> Result<(), S::Error>
    requires { All (λ (unused : UnusedRule). unused.rule < length (rules_in grammar.now)) rules.now }
    ensures { OnOk result (SendsValue
        (array (items_of (map (unused_rule_data file.now)
        (map (named_use (rules_in grammar.now)) (map rule_use rules.now)))))
        (S.written out.old) (S.written out.new)) }
{
    out.begin_seq(Some(rules.len()))?;
    let mut position = first_position();
    for unused in rules {
        let span = grammar.name_span(unused.rule);
        position = position_from(file, position, span.start);
        let name = grammar.rule_name(unused.rule);
        serialize_rule(position, span.end, name, unused.tried, out)?;
    }
    out.end_seq()
}

// Serializes the name of a rule and its place, from this position to an end, and whether it is tried.
fn serialize_rule<S: Serializer>(
    position: Position,
    end: u32,
    name: &str,
    tried: bool,
    out: &mut S,
) -> Result<(), S::Error>
    requires { position.start ≤ position.at }
    ensures { OnOk result (SendsValue
        (placed_rule position.line (1 + (position.at - position.start)) name.now position.at end tried)
        (S.written out.old) (S.written out.new)) }
{
    out.begin_map(Some(6))?;
    serialize_place(position, end, out)?;
    serialize_member("rule", &name, out)?;
    serialize_member("start", &position.at, out)?;
    serialize_member("tried", &tried, out)?;
    out.end_map()
}

// Serializes the members from the column to the line.
fn serialize_place<S: Serializer>(position: Position, end: u32, out: &mut S) -> Result<(), S::Error>
    requires { position.start ≤ position.at }
    ensures { OnOk result ((rest : Members) (last : Log) → SendsMembers rest (S.written out.new) last
        → SendsMembers (member (codes "column") (number (unsigned (1 + (position.at - position.start))))
        (member (codes "end") (number (unsigned end))
        (member (codes "line") (number (unsigned position.line)) rest))) (S.written out.old) last) }
{
    serialize_member("column", &column(position), out)?;
    serialize_member("end", &end, out)?;
    serialize_member("line", &position.line, out)
}
