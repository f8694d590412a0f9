//! Refusals as JSON.
ghost use Rattle.std.specs.Prelude.{◌≡◌, ◌<◌, ◌≤◌, All, false, length, map, true, IfOk, IfSome, OnOk, is_some, string_bytes};
ghost use Rattle.std.proofs.Props.{props};
ghost use Rattle.peg_bytes.specs.Place.{max_offset};
ghost use Rattle.serde_json.specs.Data.{Data, array, string};
ghost use Rattle.serde_json.specs.Events.{SendsValue};
ghost use Rattle.serde_json.specs.View.{items_of, view};
ghost use Rattle.serde_json.specs.Written.{compact_text, has_float};
ghost use Rattle.peg_bytes.specs.Extent.{extent};
ghost use Rattle.peg_tree.specs.Names.{name_at};
ghost use Rattle.peg_check.specs.Verdicts.{NamesRules};
ghost use Rattle.peg_json.specs.CauseText.{bare_data, loop_data, missing_data, name_data, path_data, place_data};
ghost use Rattle.peg_json.specs.CauseText.{cause_data};
ghost use Rattle.peg_json.specs.FaultCauses.{FaultNames, fault_cause};
ghost use Rattle.peg_parser.specs.Cause.{reference};
ghost use Rattle.peg_parser.specs.Faults.{RefusalNames, StartsIn};
ghost use Rattle.peg_parser.specs.Faults.{check_cause, grammar_cause, notation_cause, refusal_cause};

use crate::fault::Fault;
use peg_bytes::{LineColumn, Span, place};
use peg_check::CheckFault;
use peg_grammar::GrammarFault;
use peg_listings::text_of;
use peg_notation::NotationFault;
use peg_parser::Refusal;
use peg_tree::serialize_member;
use serde::{Described, Serialize, Serializer};
use serde_json::{Value, json};
use std::alloc::{AllocError, Global};

/// Returns a refusal as one line of JSON without its line end. `file` is the rejected grammar file, which the offsets
/// of the refusal refer to. `names` are the names of the grammar's rules, in order, as returned by `Refusal::names`.
///
/// The refusal must not be `Memory`. Linear in the file, to count the line and the column.
pub fn refusal_json(
    alloc: Global,
    fault: &Fault<'_>,
    file: &[u8],
    names: &[&str],
) -> Result<String, AllocError>
    requires has_cause { is_some (fault_cause (map (λ name. name.now) names.now) fault.now) ≡ true }
    requires short { length file.now ≤ max_offset }
    requires places { IfSome (fault_cause (map (λ name. name.now) names.now) fault.now) (StartsIn (length file.now)) }
    requires rules { FaultNames (length names.now) fault.now }
    ensures { IfOk result (λ text. IfSome (fault_cause (map (λ name. name.now) names.now) fault.now)
        (λ cause. string_bytes text ≡ compact_text (cause_data file.now cause))) }
{
    match fault {
        Fault::Refused(refusal) => refusal_text(alloc, refusal, file, names),
        Fault::NoSuchStart(name) => missing_text(alloc, "NoSuchStart", name),
        Fault::NoSuchRule(name) => missing_text(alloc, "NoSuchRule", name),
        Fault::StepLimit => refusal_only_text(alloc, "StepLimit"),
        Fault::TooDeep => refusal_only_text(alloc, "TooDeep"),
        Fault::TextTooLong => refusal_only_text(alloc, "TextTooLong"),
    }
}

// The JSON of a rejected grammar file.
fn refusal_text(
    alloc: Global,
    refusal: &Refusal,
    file: &[u8],
    names: &[&str],
) -> Result<String, AllocError>
    requires has_cause { is_some (refusal_cause (map (λ name. name.now) names.now) refusal.now) ≡ true }
    requires short { length file.now ≤ max_offset }
    requires places { IfSome (refusal_cause (map (λ name. name.now) names.now) refusal.now)
        (StartsIn (length file.now)) }
    requires rules { RefusalNames (length names.now) refusal.now }
    ensures { IfOk result (λ text. IfSome (refusal_cause (map (λ name. name.now) names.now) refusal.now)
        (λ cause. string_bytes text ≡ compact_text (cause_data file.now cause))) }
{
    match refusal {
        Refusal::Notation(fault) => notation_text(alloc, fault, file),
        Refusal::Grammar(fault) => grammar_text(alloc, fault, file),
        Refusal::NotWellFormed(fault, _) => check_text(alloc, fault, file, names),
        Refusal::CodeTooLarge => refusal_only_text(alloc, "CodeTooLarge"),
        Refusal::Memory => unreachable!(),
    }
}

// The JSON of a file that isn't in the notation, or that exceeds a limit of it.
fn notation_text(alloc: Global, fault: &NotationFault, file: &[u8]) -> Result<String, AllocError>
    requires has_cause { is_some (notation_cause fault.now) ≡ true }
    requires short { length file.now ≤ max_offset }
    requires places { IfSome (notation_cause fault.now) (StartsIn (length file.now)) }
    ensures { IfOk result (λ text. IfSome (notation_cause fault.now)
        (λ cause. string_bytes text ≡ compact_text (cause_data file.now cause))) }
{
    match fault {
        NotationFault::FileTooLong => refusal_only_text(alloc, "FileTooLong"),
        NotationFault::Syntax { at } => offset_text(alloc, "Syntax", file, *at),
        NotationFault::TooNested { at } => offset_text(alloc, "TooNested", file, *at),
        NotationFault::BadCount { at } => offset_text(alloc, "BadCount", file, *at),
        NotationFault::Memory => unreachable!(),
    }
}

// The JSON of definitions that aren't a grammar.
fn grammar_text(alloc: Global, fault: &GrammarFault, file: &[u8]) -> Result<String, AllocError>
    requires has_cause { is_some (grammar_cause fault.now) ≡ true }
    requires short { length file.now ≤ max_offset }
    requires places { IfSome (grammar_cause fault.now) (StartsIn (length file.now)) }
    ensures { IfOk result (λ text. IfSome (grammar_cause fault.now)
        (λ cause. string_bytes text ≡ compact_text (cause_data file.now cause))) }
{
    match fault {
        GrammarFault::NoRule => refusal_only_text(alloc, "NoRule"),
        GrammarFault::Duplicate { name, span } => {
            name_text(alloc, "Duplicate", file, name.as_str(), *span)
        }
        GrammarFault::Undefined { name, span } => {
            name_text(alloc, "Undefined", file, name.as_str(), *span)
        }
        GrammarFault::BadCount { span } => offset_text(alloc, "BadCount", file, span.start),
        GrammarFault::TooManyParts => refusal_only_text(alloc, "TooManyParts"),
        GrammarFault::Memory => unreachable!(),
    }
}

// The JSON of a grammar that isn't well-formed, whose rules have these names.
fn check_text(
    alloc: Global,
    fault: &CheckFault,
    file: &[u8],
    names: &[&str],
) -> Result<String, AllocError>
    requires has_cause { is_some (check_cause (map (λ name. name.now) names.now) fault.now) ≡ true }
    requires short { length file.now ≤ max_offset }
    requires places { IfSome (check_cause (map (λ name. name.now) names.now) fault.now) (StartsIn (length file.now)) }
    requires rules { NamesRules (length names.now) fault.now }
    ensures { IfOk result (λ text. IfSome (check_cause (map (λ name. name.now) names.now) fault.now)
        (λ cause. string_bytes text ≡ compact_text (cause_data file.now cause))) }
{
    match fault {
        CheckFault::EmptyLoop { rule, span } => {
            loop_text(alloc, file, names[*rule as usize], *span)
        }
        CheckFault::LeftRecursion { path } => path_text(alloc, path, names),
        CheckFault::Memory => unreachable!(),
    }
}

// The JSON of a value without floats.
fn json_text(alloc: Global, value: Value) -> Result<String, AllocError>
    ensures { (printed : Data) → view value ≡ printed → has_float printed ≡ false
        → IfOk result (λ text. string_bytes text ≡ compact_text printed) }
{
    value.to_string(alloc)
}

// The JSON of a refusal without details.
fn refusal_only_text(alloc: Global, refusal: &str) -> Result<String, AllocError>
    ensures { IfOk result (λ text. string_bytes text ≡ compact_text (bare_data refusal.now)) }
{
    json_text(alloc, refusal_only_value(alloc, refusal)?)
}

fn refusal_only_value(alloc: Global, refusal: &str) -> Result<Value, AllocError>
    ensures { IfOk result (λ value. view value ≡ bare_data refusal.now) }
{
    json!(in alloc; {"refusal": refusal})
}

// The JSON of a refusal at an offset of the file.
fn offset_text(alloc: Global, refusal: &str, file: &[u8], at: u32) -> Result<String, AllocError>
    requires short { length file.now ≤ max_offset }
    requires inside { at ≤ length file.now }
    ensures { IfOk result (λ text. string_bytes text ≡ compact_text (place_data file.now refusal.now at)) }
{
    json_text(alloc, offset_value(alloc, refusal, file, at)?)
}

fn offset_value(alloc: Global, refusal: &str, file: &[u8], at: u32) -> Result<Value, AllocError>
    requires short { length file.now ≤ max_offset }
    requires inside { at ≤ length file.now }
    ensures { IfOk result (λ value. view value ≡ place_data file.now refusal.now at) }
{
    let LineColumn { line, column } = place(file, at);
    json!(in alloc; {"at": at, "column": column, "line": line, "refusal": refusal})
}

// The JSON of a refusal of a name, with the span of the name.
fn name_text(
    alloc: Global,
    refusal: &str,
    file: &[u8],
    name: &str,
    span: Span,
) -> Result<String, AllocError>
    requires short { length file.now ≤ max_offset }
    requires inside { span.start ≤ length file.now }
    ensures { IfOk result (λ text. string_bytes text
        ≡ compact_text (name_data file.now refusal.now (reference name.now (extent span)))) }
{
    json_text(alloc, name_value(alloc, refusal, file, name, span)?)
}

fn name_value(
    alloc: Global,
    refusal: &str,
    file: &[u8],
    name: &str,
    span: Span,
) -> Result<Value, AllocError>
    requires short { length file.now ≤ max_offset }
    requires inside { span.start ≤ length file.now }
    ensures { IfOk result (λ value. view value ≡ name_data file.now refusal.now (reference name.now (extent span))) }
{
    let LineColumn { line, column } = place(file, span.start);
    json!(in alloc; {
        "column": column,
        "end": (span.end),
        "line": line,
        "name": name,
        "refusal": refusal,
        "start": (span.start)
    })
}

// The JSON of an empty loop, with its rule and span.
fn loop_text(alloc: Global, file: &[u8], rule: &str, span: Span) -> Result<String, AllocError>
    requires short { length file.now ≤ max_offset }
    requires inside { span.start ≤ length file.now }
    ensures { IfOk result (λ text. string_bytes text ≡ compact_text (loop_data file.now (reference rule.now
        (extent span)))) }
{
    json_text(alloc, loop_value(alloc, file, rule, span)?)
}

fn loop_value(alloc: Global, file: &[u8], rule: &str, span: Span) -> Result<Value, AllocError>
    requires short { length file.now ≤ max_offset }
    requires inside { span.start ≤ length file.now }
    ensures { IfOk result (λ value. view value ≡ loop_data file.now (reference rule.now (extent span))) }
{
    let LineColumn { line, column } = place(file, span.start);
    json!(in alloc; {
        "column": column,
        "end": (span.end),
        "line": line,
        "refusal": "EmptyLoop",
        "rule": rule,
        "start": (span.start)
    })
}

// The JSON of a left cycle. The names are serialized one by one, not copied first.
fn path_text(alloc: Global, path: &[u32], names: &[&str]) -> Result<String, AllocError>
    requires { All (λ rule. rule < length names.now) path.now }
    ensures { IfOk result (λ text. string_bytes text
        ≡ compact_text (path_data (map (name_at (map (λ name. name.now) names.now)) path.now))) }
{
    text_of(alloc, &LeftCycle { path, names })
}

// The rules of a left cycle by number, and the names of the rules.
#[derive(Drop)]
struct LeftCycle<'a> {
    path: &'a [u32],
    names: &'a [&'a str],
    ghost below: { All (λ rule. rule < length names.now) path.now } by { Prim.hlevel props },
}

impl Described for LeftCycle<'_> {
    ghost writes = { λ cycle. SendsValue
        (path_data (map (name_at (map (λ name. name.now) cycle.names.now)) cycle.path.now)) };
}

impl Serialize for LeftCycle<'_> {
    fn serialize<S: Serializer>(&self, out: &mut S) -> Result<(), S::Error> {
        out.begin_map(Some(2))?;
        out.key("path")?;
        serialize_names(self.path, self.names, out)?;
        serialize_member("refusal", &"LeftRecursion", out)?;
        out.end_map()
    }
}

// Serializes the names of the rules with these numbers.
fn serialize_names<S: Serializer>(path: &[u32], names: &[&str], out: &mut S) -> Result<(), S::Error>
    requires { All (λ rule. rule < length names.now) path.now }
    ensures { OnOk result (SendsValue
        (array (items_of (map string (map (name_at (map (λ name. name.now) names.now)) path.now))))
        (S.written out.old) (S.written out.new)) }
{
    out.begin_seq(Some(path.len()))?;
    for rule in path {
        serialize_name(*rule, names, out)?;
    }
    out.end_seq()
}

// Serializes the name of the rule with this number.
fn serialize_name<S: Serializer>(rule: u32, names: &[&str], out: &mut S) -> Result<(), S::Error>
    requires { rule < length names.now }
    ensures { OnOk result (SendsValue (string (name_at (map (λ name. name.now) names.now) rule))
        (S.written out.old) (S.written out.new)) }
{
    out.str(names[rule as usize])
}

// The JSON of a refusal of a name that no rule has.
fn missing_text(alloc: Global, refusal: &str, name: &str) -> Result<String, AllocError>
    ensures { IfOk result (λ text. string_bytes text ≡ compact_text (missing_data refusal.now name.now)) }
{
    json_text(alloc, missing_value(alloc, refusal, name)?)
}

fn missing_value(alloc: Global, refusal: &str, name: &str) -> Result<Value, AllocError>
    ensures { IfOk result (λ value. view value ≡ missing_data refusal.now name.now) }
{
    json!(in alloc; {"name": name, "refusal": refusal})
}
