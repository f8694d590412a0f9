//! Explanations, and calls on explanation handles.
ghost use Rattle.std.specs.Prelude.{◌≡◌, ◌≢◌, ◌≤◌, ◌<◌, ◌+◌, ◌-◌, ◌↔◌, ℕ, List, IfSome, None, Some, length, min, slice_get};
ghost use Rattle.peg_c.specs.Handles.{HoldsExplanationOf, held_expected, held_mismatch, held_grammar, held_message};
ghost use Rattle.peg_c.specs.Handles.{held_rules};
ghost use Rattle.peg_explain.specs.Explanations.{ExplainingAnswersWithin, ExplainingStaysWithin, ExplainingTakesMoreSteps};
ghost use Rattle.peg_grammar.specs.Limits.{max_text_bytes};
ghost use Rattle.peg_handle.specs.Contents.{content_grammar, content_rules};
ghost use Rattle.peg_handle.specs.Explanations.{IsExplanationOf};
ghost use Rattle.peg_handle.specs.Starts.{start_of_bytes, step_limit};
ghost use Rattle.peg_semantics.specs.Starts.{start_name};

use crate::handle::Handle;
use crate::sharing::share;
use crate::store::store;
use peg_handle::{
    Content, DONE, FAILED, FileSpan, MismatchInfo, NO_SUCH_START, OUT_OF_MEMORY, STEP_LIMIT,
    TEXT_TOO_LONG, WRONG_HANDLE, copy_expected_of, copy_message_of, explain_by, write_mismatch,
};
use std::alloc::Global;

/// Explains where a text doesn't match as a whole, from the rule that `start` names, or from the first rule if `start`
/// is empty. The name begins the message.
#[unsafe(no_mangle)]
pub extern "C" fn peg_explain(
    alloc: Global,
    grammar: &mut Handle,
    name: &[u8],
    text: &[u8],
    start: &[u8],
    memo: u32,
    steps: u64,
    out: &mut Handle,
) -> u32
    ensures kept { grammar.new.content ≡ grammar.old.content }
    ensures unchanged { result ≢ FAILED → out.new.content ≡ out.old.content }
    ensures explained { result ≡ FAILED → IfSome (held_grammar grammar.old.content) (λ file.
        HoldsExplanationOf file name.now text.now (start_of_bytes start.now) out.new.content) }
    ensures whole { result ≡ DONE → IfSome (held_grammar grammar.old.content) (λ file.
        IsExplanationOf file name.now text.now (start_of_bytes start.now) None) }

    // Each other status, and when it comes. An allocation may fail at any time.
    ensures wrong { (result ≡ WRONG_HANDLE) ↔ (held_rules grammar.old.content ≡ None) }
    ensures no_start { IfSome (held_rules grammar.old.content) (λ rules.
        (result ≡ NO_SUCH_START) ↔ (start_name rules (start_of_bytes start.now) ≡ None)) }
    ensures long { IfSome (held_rules grammar.old.content) (λ rules. (from : List ℕ)
        → start_name rules (start_of_bytes start.now) ≡ Some from
        → ((result ≡ TEXT_TOO_LONG) ↔ (max_text_bytes < length text.now))) }
    ensures limited { IfSome (held_rules grammar.old.content) (λ rules. result ≡ STEP_LIMIT
        → ExplainingTakesMoreSteps rules text.now (start_of_bytes start.now) (step_limit steps)) }
    ensures enough { IfSome (held_rules grammar.old.content) (λ rules. memo ≡ 0 → result ≤ FAILED
        → ExplainingStaysWithin rules text.now (start_of_bytes start.now) (step_limit steps)) }
    ensures within { IfSome (held_rules grammar.old.content) (λ rules. result ≤ FAILED
        → ExplainingAnswersWithin rules text.now (start_of_bytes start.now) (step_limit steps)) }
    ensures statuses { FAILED < result → NO_SUCH_START ≤ result }
    ensures greatest { result ≤ TEXT_TOO_LONG }
{
    match grammar.take(alloc) {
        None => WRONG_HANDLE,
        Some(content) => {
            let status = explain_into(alloc, &content, name, text, start, memo, steps, out);
            *grammar = Handle::new(content);
            status
        }
    }
}

// Explains by a handle's content, and stores the explanation.
fn explain_into(
    alloc: Global,
    content: &Content,
    name: &[u8],
    text: &[u8],
    start: &[u8],
    memo: u32,
    steps: u64,
    out: &mut Handle,
) -> u32
    ensures unchanged { result ≢ FAILED → out.new.content ≡ out.old.content }
    ensures explained { result ≡ FAILED → IfSome (content_grammar content.now) (λ file.
        HoldsExplanationOf file name.now text.now (start_of_bytes start.now) out.new.content) }
    ensures whole { result ≡ DONE → IfSome (content_grammar content.now) (λ file.
        IsExplanationOf file name.now text.now (start_of_bytes start.now) None) }
    ensures wrong { (result ≡ WRONG_HANDLE) ↔ (content_rules content.now ≡ None) }
    ensures no_start { IfSome (content_rules content.now) (λ rules.
        (result ≡ NO_SUCH_START) ↔ (start_name rules (start_of_bytes start.now) ≡ None)) }
    ensures long { IfSome (content_rules content.now) (λ rules. (from : List ℕ)
        → start_name rules (start_of_bytes start.now) ≡ Some from
        → ((result ≡ TEXT_TOO_LONG) ↔ (max_text_bytes < length text.now))) }
    ensures limited { IfSome (content_rules content.now) (λ rules. result ≡ STEP_LIMIT
        → ExplainingTakesMoreSteps rules text.now (start_of_bytes start.now) (step_limit steps)) }
    ensures enough { IfSome (content_rules content.now) (λ rules. memo ≡ 0 → result ≤ FAILED
        → ExplainingStaysWithin rules text.now (start_of_bytes start.now) (step_limit steps)) }
    ensures within { IfSome (content_rules content.now) (λ rules. result ≤ FAILED
        → ExplainingAnswersWithin rules text.now (start_of_bytes start.now) (step_limit steps)) }
    ensures statuses { FAILED < result → NO_SUCH_START ≤ result }
    ensures greatest { result ≤ TEXT_TOO_LONG }
{
    match explain_by(alloc, content, name, text, start, memo, steps) {
        Ok(Some(explanation)) => {
            if store(alloc, Content::Explained(explanation), out) {
                FAILED
            } else {
                OUT_OF_MEMORY
            }
        }
        Ok(None) => DONE,
        Err(status) => status,
    }
}

/// Makes `out` another handle of the same explanation. The two handles own it together, and may be used and freed by
/// different threads. Constant time, but for what `out` held before.
#[unsafe(no_mangle)]
pub extern "C" fn peg_explanation_share(
    alloc: Global,
    explanation: &mut Handle,
    out: &mut Handle,
) -> u32
    ensures kept { explanation.new.content ≡ explanation.old.content }
    ensures statuses { result ≢ DONE → result ≢ WRONG_HANDLE → result ≡ OUT_OF_MEMORY }
    ensures shared { result ≡ DONE → out.new.content ≡ explanation.old.content }
    ensures wrong { (result ≡ WRONG_HANDLE) ↔ (explanation.old.content ≡ None) }
    ensures unchanged { result ≢ DONE → out.new.content ≡ out.old.content }
{
    share(alloc, explanation, out)
}

/// Leaves a handle null, and frees its content if no other handle owns it.
#[unsafe(no_mangle)]
pub extern "C" fn peg_explanation_free(alloc: Global, explanation: &mut Handle)
    ensures { explanation.new.content ≡ None }
{
    *explanation = Handle::null(alloc);
}

/// Copies the start of an explanation's message, as much as fits. Returns the length of the whole message.
#[unsafe(no_mangle)]
pub extern "C" fn peg_explanation_message(
    alloc: Global,
    explanation: &mut Handle,
    out: &mut [u8],
) -> usize
    ensures kept { explanation.new.content ≡ explanation.old.content }
    ensures length { result ≡ length (held_message explanation.old.content) }
    ensures copied { (place : ℕ) → place < min (length out.old) result
        → slice_get out.new place ≡ slice_get (held_message explanation.old.content) place }
    ensures rest { (place : ℕ) → min (length out.old) result ≤ place
        → slice_get out.new place ≡ slice_get out.old place }
{
    match explanation.take(alloc) {
        None => 0,
        Some(content) => {
            let length = copy_message_of(&content, out);
            *explanation = Handle::new(content);
            length
        }
    }
}

/// Writes the position of an explanation, and how many items are expected there.
#[unsafe(no_mangle)]
pub extern "C" fn peg_explanation_mismatch(
    alloc: Global,
    explanation: &mut Handle,
    out: &mut MismatchInfo,
) -> u32
    ensures kept { explanation.new.content ≡ explanation.old.content }
    ensures statuses { result ≢ DONE → result ≡ WRONG_HANDLE }
    ensures done { result ≡ DONE → held_mismatch explanation.old.content ≡ Some out.new }
    ensures wrong { result ≡ WRONG_HANDLE → held_mismatch explanation.old.content ≡ None }
    ensures unchanged { result ≡ WRONG_HANDLE → out.new ≡ out.old }
{
    match explanation.take(alloc) {
        None => WRONG_HANDLE,
        Some(content) => {
            let status = write_mismatch(&content, out);
            *explanation = Handle::new(content);
            status
        }
    }
}

/// Copies the spans in the grammar file of the expected items from number `from` on, as many as there are and fit. Returns
/// their number.
#[unsafe(no_mangle)]
pub extern "C" fn peg_explanation_expected(
    alloc: Global,
    explanation: &mut Handle,
    from: usize,
    out: &mut [FileSpan],
) -> usize
    ensures kept { explanation.new.content ≡ explanation.old.content }
    ensures count { result ≡ min (length out.old) (length (held_expected explanation.old.content) - from) }
    ensures copied { (place : ℕ) → place < result
        → slice_get out.new place ≡ slice_get (held_expected explanation.old.content) (from + place) }
    ensures rest { (place : ℕ) → result ≤ place → slice_get out.new place ≡ slice_get out.old place }
{
    match explanation.take(alloc) {
        None => 0,
        Some(content) => {
            let count = copy_expected_of(&content, from, out);
            *explanation = Handle::new(content);
            count
        }
    }
}
