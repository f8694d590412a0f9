//! The bodies of the calls that need a handle's content. A call on other content than it needs changes nothing.
ghost use Rattle.std.specs.Prelude.{◌≡◌, ◌≢◌, ◌≤◌, ◌<◌, ◌+◌, ◌-◌, ◌↔◌, ℕ, List, IfErr, IfOk, IfSome, IsErrOf, OnOk, None, Some};
ghost use Rattle.std.specs.Prelude.{length, min, slice_get, string_bytes};
ghost use Rattle.peg_grammar.specs.Limits.{max_text_bytes};
ghost use Rattle.peg_handle.specs.Answers.{IsAnswerTo};
ghost use Rattle.peg_handle.specs.Contents.{content_info, content_json, content_name, content_nodes, content_reason};
ghost use Rattle.peg_handle.specs.Contents.{content_rules, content_spans, content_summary};
ghost use Rattle.peg_handle.specs.Starts.{start_of_bytes, step_limit};
ghost use Rattle.peg_parser.specs.StepLimits.{TakesMoreSteps};
ghost use Rattle.peg_semantics.specs.Rules.{Rule};
ghost use Rattle.peg_semantics.specs.Starts.{start_name};

use crate::buffers::{copy_items, copy_text};
use crate::content::{Content, FileSpan, Match};
use crate::nodes::{Node, copy_nodes};
use crate::parsing::parse;
use crate::refusal_info::RefusalInfo;
use crate::rule_names::copy_rule_name;
use crate::status::{DONE, NO_SUCH_START, STEP_LIMIT, TEXT_TOO_LONG, WRONG_HANDLE, fault_status};
use crate::summary::{Summary, summary_of};
use std::alloc::Global;

/// Parses a prefix of a text by a handle's grammar. An error is a status from `NO_SUCH_START` to `TEXT_TOO_LONG`.
pub fn parse_by(
    alloc: Global,
    content: &Content,
    text: &[u8],
    start: &[u8],
    memo: u32,
    steps: u64,
) -> Result<Match, u32>
    ensures wrong { IsErrOf result WRONG_HANDLE ↔ (content_rules content.now ≡ None) }
    ensures answer { IfSome (content_rules content.now) (λ rules. IfOk result (IsAnswerTo rules text.now start.now memo)) }
    ensures no_start { IfSome (content_rules content.now) (λ rules.
        IsErrOf result NO_SUCH_START ↔ (start_name rules (start_of_bytes start.now) ≡ None)) }
    ensures long { IfSome (content_rules content.now) (λ rules. (name : List ℕ)
        → start_name rules (start_of_bytes start.now) ≡ Some name
        → (IsErrOf result TEXT_TOO_LONG ↔ (max_text_bytes < length text.now))) }

    // The step limit: an answer stays within it. Without a memo there is no answer if more steps are needed.
    ensures allowed { IfOk result (λ found. (limit : ℕ) → step_limit steps ≡ Some limit → found.answer.steps ≤ limit) }
    ensures limited { IfSome (content_rules content.now) (λ rules. IsErrOf result STEP_LIMIT
        → TakesMoreSteps rules text.now (start_of_bytes start.now) (step_limit steps)) }
    ensures enough { IfSome (content_rules content.now) (λ rules. memo ≡ 0
        → OnOk result (¬ TakesMoreSteps rules text.now (start_of_bytes start.now) (step_limit steps))) }
    ensures least { IfErr result (λ status. NO_SUCH_START ≤ status) }
    ensures greatest { IfErr result (λ status. status ≤ TEXT_TOO_LONG) }
{
    match content {
        Content::Accepted(grammar) => match parse(
            alloc,
            &grammar.parser,
            text,
            start,
            memo,
            steps,
        ) {
            Ok(found) => Ok(found),
            Err(fault) => Err(fault_status(fault)),
        },
        _ => Err(WRONG_HANDLE),
    }
}

/// Copies nodes from number `from` on to the start of `out`, as many as there are and fit. Returns their number.
pub fn copy_nodes_of(content: &Content, from: usize, out: &mut [Node]) -> usize
    ensures count { result ≡ min (length out.old) (length (content_nodes content.now) - from) }
    ensures copied { (place : ℕ) → place < result
        → slice_get out.new place ≡ slice_get (content_nodes content.now) (from + place) }
    ensures rest { (place : ℕ) → result ≤ place → slice_get out.new place ≡ slice_get out.old place }
{
    match content {
        Content::Answered(found) => copy_nodes(found, from, out),
        _ => 0,
    }
}

/// Copies the spans of expected terminals, likewise.
pub fn copy_spans_of(content: &Content, from: usize, out: &mut [FileSpan]) -> usize
    ensures count { result ≡ min (length out.old) (length (content_spans content.now) - from) }
    ensures copied { (place : ℕ) → place < result
        → slice_get out.new place ≡ slice_get (content_spans content.now) (from + place) }
    ensures rest { (place : ℕ) → result ≤ place → slice_get out.new place ≡ slice_get out.old place }
{
    match content {
        Content::Answered(found) => copy_items(&found.expected, from, out),
        _ => 0,
    }
}

/// Writes the summary of an answer.
pub fn write_summary(content: &Content, out: &mut Summary) -> u32
    ensures statuses { result ≢ DONE → result ≡ WRONG_HANDLE }
    ensures done { result ≡ DONE → content_summary content.now ≡ Some out.new }
    ensures wrong { result ≡ WRONG_HANDLE → content_summary content.now ≡ None }
    ensures unchanged { result ≡ WRONG_HANDLE → out.new ≡ out.old }
{
    match content {
        Content::Answered(found) => {
            *out = summary_of(found);
            DONE
        }
        _ => WRONG_HANDLE,
    }
}

/// Writes the number of rules of a grammar.
pub fn write_rule_count(content: &Content, out: &mut u32) -> u32
    ensures statuses { result ≢ DONE → result ≡ WRONG_HANDLE }
    ensures done { result ≡ DONE → IfSome (content_rules content.now) (λ rules. out.new ≡ length rules) }
    ensures wrong { (result ≡ WRONG_HANDLE) ↔ (content_rules content.now ≡ None) }
    ensures unchanged { result ≡ WRONG_HANDLE → out.new ≡ out.old }
{
    match content {
        Content::Accepted(grammar) => {
            *out = grammar.parser.grammar().rules();
            DONE
        }
        _ => WRONG_HANDLE,
    }
}

/// Copies the start of a rule's name, as much as fits, and returns the length of the whole name. The length is 0 if
/// there is no such rule.
pub fn copy_name_of(content: &Content, rule: u32, out: &mut [u8]) -> usize
    ensures length { result ≡ length (content_name content.now rule) }
    ensures copied { (place : ℕ) → place < min (length out.old) result
        → slice_get out.new place ≡ slice_get (content_name content.now rule) place }
    ensures rest { (place : ℕ) → min (length out.old) result ≤ place
        → slice_get out.new place ≡ slice_get out.old place }
{
    match content {
        Content::Accepted(grammar) => copy_rule_name(&grammar.parser, rule, out),
        _ => 0,
    }
}

/// Copies the start of a refusal's line of JSON, as much as fits, and returns the length of the whole line. The length
/// is 0 if there is no refusal.
pub fn copy_json_of(content: &Content, out: &mut [u8]) -> usize
    ensures length { result ≡ length (content_json content.now) }
    ensures copied { (place : ℕ) → place < min (length out.old) result
        → slice_get out.new place ≡ slice_get (content_json content.now) place }
    ensures rest { (place : ℕ) → min (length out.old) result ≤ place
        → slice_get out.new place ≡ slice_get out.old place }
{
    match content {
        Content::Rejected(rejection) => copy_text(rejection.json.as_bytes(), out),
        _ => 0,
    }
}

/// Copies the start of a refusal's message, as much as fits, and returns the length of the whole message. The length is
/// 0 if there is no refusal.
pub fn copy_reason_of(content: &Content, out: &mut [u8]) -> usize
    ensures length { result ≡ length (content_reason content.now) }
    ensures copied { (place : ℕ) → place < min (length out.old) result
        → slice_get out.new place ≡ slice_get (content_reason content.now) place }
    ensures rest { (place : ℕ) → min (length out.old) result ≤ place
        → slice_get out.new place ≡ slice_get out.old place }
{
    match content {
        Content::Rejected(rejection) => copy_text(&rejection.message, out),
        _ => 0,
    }
}

/// Writes the kind and the place of a refusal.
pub fn write_info(content: &Content, out: &mut RefusalInfo) -> u32
    ensures statuses { result ≢ DONE → result ≡ WRONG_HANDLE }
    ensures done { result ≡ DONE → content_info content.now ≡ Some out.new }
    ensures wrong { result ≡ WRONG_HANDLE → content_info content.now ≡ None }
    ensures unchanged { result ≡ WRONG_HANDLE → out.new ≡ out.old }
{
    match content {
        Content::Rejected(rejection) => {
            *out = rejection.info;
            DONE
        }
        _ => WRONG_HANDLE,
    }
}
