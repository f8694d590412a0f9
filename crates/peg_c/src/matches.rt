//! Parses, and calls on match handles.
ghost use Rattle.std.specs.Prelude.{◌≡◌, ◌≢◌, ◌≤◌, ◌<◌, ◌+◌, ◌-◌, ◌↔◌, ℕ, List, IfSome, None, Some, length, min, slice_get};
ghost use Rattle.peg_grammar.specs.Limits.{max_text_bytes};
ghost use Rattle.peg_parser.specs.StepLimits.{TakesMoreSteps};
ghost use Rattle.peg_semantics.specs.Starts.{start_name};
ghost use Rattle.peg_handle.specs.Contents.{content_rules};
ghost use Rattle.peg_handle.specs.Starts.{start_of_bytes, step_limit};
ghost use Rattle.peg_c.specs.Handles.{HoldsAnswerTo, HoldsFailed, HoldsMatched, HoldsWithin};
ghost use Rattle.peg_c.specs.Handles.{held_nodes, held_rules, held_spans, held_summary};

use crate::handle::Handle;
use crate::sharing::share;
use crate::store::store;
use peg_handle::{
    Content, DONE, FAILED, FileSpan, Match, NO_SUCH_START, Node, OUT_OF_MEMORY, STEP_LIMIT,
    Summary, TEXT_TOO_LONG, WRONG_HANDLE, copy_nodes_of, copy_spans_of, parse_by, write_summary,
};
use peg_tree::Parsed;
use std::alloc::Global;

/// Parses a prefix of a text by a grammar, from the rule that `start` names, or from the first rule if `start` is empty.
#[unsafe(no_mangle)]
pub extern "C" fn peg_parse(
    alloc: Global,
    grammar: &mut Handle,
    text: &[u8],
    start: &[u8],
    memo: u32,
    steps: u64,
    out: &mut Handle,
) -> u32
    ensures kept { grammar.new.content ≡ grammar.old.content }
    ensures unchanged { FAILED < result → out.new.content ≡ out.old.content }

    // With an answer, the handle holds Ford's outcome.
    ensures answer { result ≤ FAILED → IfSome (held_rules grammar.old.content) (λ rules.
        HoldsAnswerTo rules text.now start.now memo out.new.content) }
    ensures matched { result ≡ DONE → HoldsMatched out.new.content }
    ensures failed { result ≡ FAILED → HoldsFailed out.new.content }
    ensures within { result ≤ FAILED → (limit : ℕ) → step_limit steps ≡ Some limit → HoldsWithin limit out.new.content }

    // Each other status, and when it comes. An allocation may fail at any time.
    ensures wrong { (result ≡ WRONG_HANDLE) ↔ (held_rules grammar.old.content ≡ None) }
    ensures no_start { IfSome (held_rules grammar.old.content) (λ rules.
        (result ≡ NO_SUCH_START) ↔ (start_name rules (start_of_bytes start.now) ≡ None)) }
    ensures long { IfSome (held_rules grammar.old.content) (λ rules. (name : List ℕ)
        → start_name rules (start_of_bytes start.now) ≡ Some name
        → ((result ≡ TEXT_TOO_LONG) ↔ (max_text_bytes < length text.now))) }
    ensures limited { IfSome (held_rules grammar.old.content) (λ rules. result ≡ STEP_LIMIT
        → TakesMoreSteps rules text.now (start_of_bytes start.now) (step_limit steps)) }
    ensures enough { IfSome (held_rules grammar.old.content) (λ rules. memo ≡ 0 → result ≤ FAILED
        → ¬ TakesMoreSteps rules text.now (start_of_bytes start.now) (step_limit steps)) }
    ensures statuses { FAILED < result → NO_SUCH_START ≤ result }
    ensures greatest { result ≤ TEXT_TOO_LONG }
{
    match grammar.take(alloc) {
        None => WRONG_HANDLE,
        Some(content) => {
            let status = parse_into(alloc, &content, text, start, memo, steps, out);
            *grammar = Handle::new(content);
            status
        }
    }
}

// Parses by a handle's content, and stores the answer.
fn parse_into(
    alloc: Global,
    content: &Content,
    text: &[u8],
    start: &[u8],
    memo: u32,
    steps: u64,
    out: &mut Handle,
) -> u32
    ensures unchanged { FAILED < result → out.new.content ≡ out.old.content }
    ensures answer { result ≤ FAILED → IfSome (content_rules content.now) (λ rules.
        HoldsAnswerTo rules text.now start.now memo out.new.content) }
    ensures matched { result ≡ DONE → HoldsMatched out.new.content }
    ensures failed { result ≡ FAILED → HoldsFailed out.new.content }
    ensures within { result ≤ FAILED → (limit : ℕ) → step_limit steps ≡ Some limit → HoldsWithin limit out.new.content }
    ensures wrong { (result ≡ WRONG_HANDLE) ↔ (content_rules content.now ≡ None) }
    ensures no_start { IfSome (content_rules content.now) (λ rules.
        (result ≡ NO_SUCH_START) ↔ (start_name rules (start_of_bytes start.now) ≡ None)) }
    ensures long { IfSome (content_rules content.now) (λ rules. (name : List ℕ)
        → start_name rules (start_of_bytes start.now) ≡ Some name
        → ((result ≡ TEXT_TOO_LONG) ↔ (max_text_bytes < length text.now))) }
    ensures limited { IfSome (content_rules content.now) (λ rules. result ≡ STEP_LIMIT
        → TakesMoreSteps rules text.now (start_of_bytes start.now) (step_limit steps)) }
    ensures enough { IfSome (content_rules content.now) (λ rules. memo ≡ 0 → result ≤ FAILED
        → ¬ TakesMoreSteps rules text.now (start_of_bytes start.now) (step_limit steps)) }
    ensures statuses { FAILED < result → NO_SUCH_START ≤ result }
    ensures greatest { result ≤ TEXT_TOO_LONG }
{
    match parse_by(alloc, content, text, start, memo, steps) {
        Ok(found) => {
            let status = status_of(&found);
            if store(alloc, Content::Answered(found), out) {
                status
            } else {
                OUT_OF_MEMORY
            }
        }
        Err(status) => status,
    }
}

// Whether a prefix of the text matched.
pub(crate) fn status_of(found: &Match) -> u32
    ensures few { result ≤ FAILED }
    ensures matched { result ≡ DONE → HoldsMatched (Some (Content.Answered found.now)) }
    ensures failed { result ≡ FAILED → HoldsFailed (Some (Content.Answered found.now)) }
{
    match found.answer.outcome.result {
        Parsed::Matched { .. } => DONE,
        Parsed::Failed => FAILED,
    }
}

/// Makes `out` another handle of the same answer. The two handles own it together, and may be used and freed by
/// different threads. Constant time, but for what `out` held before.
#[unsafe(no_mangle)]
pub extern "C" fn peg_match_share(alloc: Global, found: &mut Handle, out: &mut Handle) -> u32
    ensures kept { found.new.content ≡ found.old.content }
    ensures statuses { result ≢ DONE → result ≢ WRONG_HANDLE → result ≡ OUT_OF_MEMORY }
    ensures shared { result ≡ DONE → out.new.content ≡ found.old.content }
    ensures wrong { (result ≡ WRONG_HANDLE) ↔ (found.old.content ≡ None) }
    ensures unchanged { result ≢ DONE → out.new.content ≡ out.old.content }
{
    share(alloc, found, out)
}

/// Leaves a handle null, and frees its content if no other handle owns it.
#[unsafe(no_mangle)]
pub extern "C" fn peg_match_free(alloc: Global, found: &mut Handle)
    ensures { found.new.content ≡ None }
{
    *found = Handle::null(alloc);
}

/// Writes the summary of an answer.
#[unsafe(no_mangle)]
pub extern "C" fn peg_match_summary(alloc: Global, found: &mut Handle, out: &mut Summary) -> u32
    ensures kept { found.new.content ≡ found.old.content }
    ensures statuses { result ≢ DONE → result ≡ WRONG_HANDLE }
    ensures done { result ≡ DONE → held_summary found.old.content ≡ Some out.new }
    ensures wrong { result ≡ WRONG_HANDLE → held_summary found.old.content ≡ None }
    ensures unchanged { result ≡ WRONG_HANDLE → out.new ≡ out.old }
{
    match found.take(alloc) {
        None => WRONG_HANDLE,
        Some(content) => {
            let status = write_summary(&content, out);
            *found = Handle::new(content);
            status
        }
    }
}

/// Copies nodes of the tree from number `from` on, as many as there are and fit. Returns their number.
#[unsafe(no_mangle)]
pub extern "C" fn peg_match_nodes(
    alloc: Global,
    found: &mut Handle,
    from: usize,
    out: &mut [Node],
) -> usize
    ensures kept { found.new.content ≡ found.old.content }
    ensures count { result ≡ min (length out.old) (length (held_nodes found.old.content) - from) }
    ensures copied { (place : ℕ) → place < result
        → slice_get out.new place ≡ slice_get (held_nodes found.old.content) (from + place) }
    ensures rest { (place : ℕ) → result ≤ place → slice_get out.new place ≡ slice_get out.old place }
{
    match found.take(alloc) {
        None => 0,
        Some(content) => {
            let count = copy_nodes_of(&content, from, out);
            *found = Handle::new(content);
            count
        }
    }
}

/// Copies the spans in the grammar file of the terminals that failed furthest, likewise.
#[unsafe(no_mangle)]
pub extern "C" fn peg_match_expected(
    alloc: Global,
    found: &mut Handle,
    from: usize,
    out: &mut [FileSpan],
) -> usize
    ensures kept { found.new.content ≡ found.old.content }
    ensures count { result ≡ min (length out.old) (length (held_spans found.old.content) - from) }
    ensures copied { (place : ℕ) → place < result
        → slice_get out.new place ≡ slice_get (held_spans found.old.content) (from + place) }
    ensures rest { (place : ℕ) → result ≤ place → slice_get out.new place ≡ slice_get out.old place }
{
    match found.take(alloc) {
        None => 0,
        Some(content) => {
            let count = copy_spans_of(&content, from, out);
            *found = Handle::new(content);
            count
        }
    }
}
