//! The bodies of the calls that make or read explanations. A call on other content than it needs changes nothing.
ghost use Rattle.std.specs.Prelude.{◌≡◌, ◌≢◌, ◌≤◌, ◌<◌, ◌+◌, ◌-◌, ◌↔◌, ℕ, List, IfErr, IfOk, IfSome, IsErrOf, None, Some};
ghost use Rattle.std.specs.Prelude.{length, min, slice_get, OnOk};
ghost use Rattle.peg_explain.specs.Explanations.{ExplainingAnswersWithin, ExplainingStaysWithin, ExplainingTakesMoreSteps};
ghost use Rattle.peg_grammar.specs.Limits.{max_text_bytes};
ghost use Rattle.peg_handle.specs.Contents.{content_expected, content_mismatch, content_grammar, content_message};
ghost use Rattle.peg_handle.specs.Contents.{content_explainer, content_rules};
ghost use Rattle.peg_handle.specs.Explanations.{IsCompiled, IsExplanationOf, mismatch_info};
ghost use Rattle.peg_handle.specs.Starts.{start_of_bytes, step_limit};
ghost use Rattle.peg_parser.specs.Parser.{parser_rules};
ghost use Rattle.peg_semantics.specs.Starts.{start_name};

use crate::buffers::{copy_items, copy_text};
use crate::content::{Content, Explanation, FileSpan};
use crate::explaining::{explain, explain_compiled};
use crate::status::{DONE, NO_SUCH_START, STEP_LIMIT, TEXT_TOO_LONG, WRONG_HANDLE, fault_status};
use std::alloc::Global;

/// Where a text doesn't match as a whole: an explanation without its message.
#[repr(C)]
#[derive(Clone, Copy, Debug, PartialEq, Eq)]
pub struct MismatchInfo {
    /// The offset in the text.
    pub position: u32,
    /// 1 if the end of the text is expected there, else 0.
    pub end_expected: u32,
    /// The number of items that are expected there.
    pub expected: u64,
}

/// Explains by a handle's grammar where a text doesn't match as a whole. An error is a status from `NO_SUCH_START` to
/// `TEXT_TOO_LONG`.
pub fn explain_by(
    alloc: Global,
    content: &Content,
    name: &[u8],
    text: &[u8],
    start: &[u8],
    memo: u32,
    steps: u64,
) -> Result<Option<Explanation>, u32>
    ensures wrong { IsErrOf result WRONG_HANDLE ↔ (content_rules content.now ≡ None) }
    ensures explained { IfSome (content_grammar content.now) (λ grammar.
        IfOk result (IsExplanationOf grammar name.now text.now (start_of_bytes start.now))) }
    ensures no_start { IfSome (content_rules content.now) (λ rules.
        IsErrOf result NO_SUCH_START ↔ (start_name rules (start_of_bytes start.now) ≡ None)) }
    ensures long { IfSome (content_rules content.now) (λ rules. (from : List ℕ)
        → start_name rules (start_of_bytes start.now) ≡ Some from
        → (IsErrOf result TEXT_TOO_LONG ↔ (max_text_bytes < length text.now))) }
    ensures limited { IfSome (content_rules content.now) (λ rules. IsErrOf result STEP_LIMIT
        → ExplainingTakesMoreSteps rules text.now (start_of_bytes start.now) (step_limit steps)) }
    ensures enough { IfSome (content_rules content.now) (λ rules. memo ≡ 0
        → OnOk result (ExplainingStaysWithin rules text.now (start_of_bytes start.now) (step_limit steps))) }
    ensures within { IfSome (content_rules content.now) (λ rules.
        OnOk result (ExplainingAnswersWithin rules text.now (start_of_bytes start.now) (step_limit steps))) }
    ensures least { IfErr result (λ status. NO_SUCH_START ≤ status) }
    ensures greatest { IfErr result (λ status. status ≤ TEXT_TOO_LONG) }
{
    match content {
        Content::Accepted(grammar) => {
            match explain(alloc, grammar, name, text, start, memo, steps) {
                Ok(explanation) => Ok(explanation),
                Err(fault) => Err(fault_status(fault)),
            }
        }
        _ => Err(WRONG_HANDLE),
    }
}

/// Explains by a handle's compiled explainer where a text doesn't match as a whole. An error is a status from
/// `NO_SUCH_START` to `TEXT_TOO_LONG`.
pub fn explain_by_explainer(
    alloc: Global,
    content: &Content,
    name: &[u8],
    text: &[u8],
    start: &[u8],
    memo: u32,
    steps: u64,
) -> Result<Option<Explanation>, u32>
    ensures wrong { IsErrOf result WRONG_HANDLE ↔ (content_explainer content.now ≡ None) }
    ensures explained { IfSome (content_explainer content.now) (λ explainer. IsCompiled explainer
        → IfOk result (IsExplanationOf explainer.grammar name.now text.now (start_of_bytes start.now))) }
    ensures no_start { IfSome (content_explainer content.now) (λ explainer. IsCompiled explainer
        → (IsErrOf result NO_SUCH_START
        ↔ (start_name (parser_rules explainer.grammar.parser) (start_of_bytes start.now) ≡ None))) }
    ensures long { IfSome (content_explainer content.now) (λ explainer. IsCompiled explainer → (from : List ℕ)
        → start_name (parser_rules explainer.grammar.parser) (start_of_bytes start.now) ≡ Some from
        → (IsErrOf result TEXT_TOO_LONG ↔ (max_text_bytes < length text.now))) }
    ensures limited { IfSome (content_explainer content.now) (λ explainer. IsCompiled explainer
        → IsErrOf result STEP_LIMIT → ExplainingTakesMoreSteps (parser_rules explainer.grammar.parser) text.now
        (start_of_bytes start.now) (step_limit steps)) }
    ensures enough { IfSome (content_explainer content.now) (λ explainer. IsCompiled explainer → memo ≡ 0
        → OnOk result (ExplainingStaysWithin (parser_rules explainer.grammar.parser) text.now
        (start_of_bytes start.now) (step_limit steps))) }
    ensures within { IfSome (content_explainer content.now) (λ explainer. IsCompiled explainer
        → OnOk result (ExplainingAnswersWithin (parser_rules explainer.grammar.parser) text.now
        (start_of_bytes start.now) (step_limit steps))) }
    ensures least { IfErr result (λ status. NO_SUCH_START ≤ status) }
    ensures greatest { IfErr result (λ status. status ≤ TEXT_TOO_LONG) }
{
    match content {
        Content::Explaining(explainer) => {
            match explain_compiled(alloc, explainer, name, text, start, memo, steps) {
                Ok(explanation) => Ok(explanation),
                Err(fault) => Err(fault_status(fault)),
            }
        }
        _ => Err(WRONG_HANDLE),
    }
}

/// Copies the start of an explanation's message, as much as fits, and returns the length of the whole message. The
/// length is 0 if there is no explanation.
pub fn copy_message_of(content: &Content, out: &mut [u8]) -> usize
    ensures length { result ≡ length (content_message content.now) }
    ensures copied { (place : ℕ) → place < min (length out.old) result
        → slice_get out.new place ≡ slice_get (content_message content.now) place }
    ensures rest { (place : ℕ) → min (length out.old) result ≤ place
        → slice_get out.new place ≡ slice_get out.old place }
{
    match content {
        Content::Explained(explanation) => copy_text(&explanation.message, out),
        _ => 0,
    }
}

/// Copies the spans of an explanation's expected items from number `from` on to the start of `out`, as many as there are
/// and fit. Returns their number.
pub fn copy_expected_of(content: &Content, from: usize, out: &mut [FileSpan]) -> usize
    ensures count { result ≡ min (length out.old) (length (content_expected content.now) - from) }
    ensures copied { (place : ℕ) → place < result
        → slice_get out.new place ≡ slice_get (content_expected content.now) (from + place) }
    ensures rest { (place : ℕ) → result ≤ place → slice_get out.new place ≡ slice_get out.old place }
{
    match content {
        Content::Explained(explanation) => copy_items(&explanation.expected, from, out),
        _ => 0,
    }
}

/// Writes where a text doesn't match.
pub fn write_mismatch(content: &Content, out: &mut MismatchInfo) -> u32
    ensures statuses { result ≢ DONE → result ≡ WRONG_HANDLE }
    ensures done { result ≡ DONE → content_mismatch content.now ≡ Some out.new }
    ensures wrong { result ≡ WRONG_HANDLE → content_mismatch content.now ≡ None }
    ensures unchanged { result ≡ WRONG_HANDLE → out.new ≡ out.old }
{
    match content {
        Content::Explained(explanation) => {
            *out = info_of(explanation);
            DONE
        }
        _ => WRONG_HANDLE,
    }
}

// Returns an explanation without its message.
fn info_of(explanation: &Explanation) -> MismatchInfo
    ensures { result ≡ mismatch_info explanation.now }
{
    MismatchInfo {
        position: explanation.at,
        end_expected: u32::from(explanation.is_end_expected),
        expected: explanation.expected.len() as u64,
    }
}
