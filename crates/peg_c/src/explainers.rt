//! Explainers, and calls on explainer handles.
ghost use Rattle.std.specs.Prelude.{◌≡◌, ◌≢◌, ◌≤◌, ◌<◌, ◌↔◌, ℕ, List, IfSome, None, Some, length};
ghost use Rattle.peg_c.specs.Handles.{HoldsExplainerOf, HoldsExplanationOf, held_explainer};
ghost use Rattle.peg_explain.specs.Explanations.{ExplainingAnswersWithin, ExplainingStaysWithin, ExplainingTakesMoreSteps};
ghost use Rattle.peg_grammar.specs.Limits.{max_text_bytes};
ghost use Rattle.peg_handle.specs.Contents.{content_explainer};
ghost use Rattle.peg_handle.specs.Explanations.{IsCompiled, IsExplanationOf};
ghost use Rattle.peg_handle.specs.Rejections.{IsRejectionOf};
ghost use Rattle.peg_handle.specs.Starts.{start_of_bytes, step_limit};
ghost use Rattle.peg_handle.specs.declared.content.Rejection.{Rejection};
ghost use Rattle.peg_parser.specs.Parser.{parser_rules};
ghost use Rattle.peg_semantics.specs.Starts.{start_name};

use crate::handle::Handle;
use crate::sharing::share;
use crate::store::store;
use peg_handle::{
    Content, DONE, FAILED, NO_SUCH_START, OUT_OF_MEMORY, REFUSED, ReadFault, STEP_LIMIT,
    TEXT_TOO_LONG, WRONG_HANDLE, explain_by_explainer, read_explainer,
};
use std::alloc::Global;

/// Reads a grammar file, and compiles its grammar of explanations. The handle then holds both.
#[unsafe(no_mangle)]
pub extern "C" fn peg_explainer_read(alloc: Global, file: &[u8], out: &mut Handle) -> u32
    ensures statuses { result ≢ DONE → result ≢ REFUSED → result ≡ OUT_OF_MEMORY }
    ensures accepted { result ≡ DONE → HoldsExplainerOf file.now out.new.content }
    ensures refused { result ≡ REFUSED → (rejection : Rejection) × IsRejectionOf file.now rejection }
    ensures unchanged { result ≢ DONE → out.new.content ≡ out.old.content }
{
    match read_explainer(alloc, file) {
        Ok(explainer) => {
            if store(alloc, Content::Explaining(explainer), out) {
                DONE
            } else {
                OUT_OF_MEMORY
            }
        }
        Err(ReadFault::Rejected(_)) => REFUSED,
        Err(ReadFault::Memory) => OUT_OF_MEMORY,
    }
}

/// Makes `out` another handle of the same explainer. The two handles own it together, and may be used and freed by
/// different threads. Constant time, but for what `out` held before.
#[unsafe(no_mangle)]
pub extern "C" fn peg_explainer_share(
    alloc: Global,
    explainer: &mut Handle,
    out: &mut Handle,
) -> u32
    ensures kept { explainer.new.content ≡ explainer.old.content }
    ensures statuses { result ≢ DONE → result ≢ WRONG_HANDLE → result ≡ OUT_OF_MEMORY }
    ensures shared { result ≡ DONE → out.new.content ≡ explainer.old.content }
    ensures wrong { (result ≡ WRONG_HANDLE) ↔ (explainer.old.content ≡ None) }
    ensures unchanged { result ≢ DONE → out.new.content ≡ out.old.content }
{
    share(alloc, explainer, out)
}

/// Leaves a handle null, and frees its content if no other handle owns it.
#[unsafe(no_mangle)]
pub extern "C" fn peg_explainer_free(alloc: Global, explainer: &mut Handle)
    ensures { explainer.new.content ≡ None }
{
    *explainer = Handle::null(alloc);
}

/// Explains where a text doesn't match as a whole, as `peg_explain` does by the same grammar file. Compiles nothing.
#[unsafe(no_mangle)]
pub extern "C" fn peg_explainer_explain(
    alloc: Global,
    explainer: &mut Handle,
    name: &[u8],
    text: &[u8],
    start: &[u8],
    memo: u32,
    steps: u64,
    out: &mut Handle,
) -> u32
    ensures kept { explainer.new.content ≡ explainer.old.content }
    ensures unchanged { result ≢ FAILED → out.new.content ≡ out.old.content }
    ensures wrong { (result ≡ WRONG_HANDLE) ↔ (held_explainer explainer.old.content ≡ None) }
    ensures statuses { FAILED < result → NO_SUCH_START ≤ result }
    ensures greatest { result ≤ TEXT_TOO_LONG }

    // By an explainer that `peg_explainer_read` made.
    ensures explained { IfSome (held_explainer explainer.old.content) (λ held. IsCompiled held → result ≡ FAILED
        → HoldsExplanationOf held.grammar name.now text.now (start_of_bytes start.now) out.new.content) }
    ensures whole { IfSome (held_explainer explainer.old.content) (λ held. IsCompiled held → result ≡ DONE
        → IsExplanationOf held.grammar name.now text.now (start_of_bytes start.now) None) }
    ensures no_start { IfSome (held_explainer explainer.old.content) (λ held. IsCompiled held
        → ((result ≡ NO_SUCH_START)
        ↔ (start_name (parser_rules held.grammar.parser) (start_of_bytes start.now) ≡ None))) }
    ensures long { IfSome (held_explainer explainer.old.content) (λ held. IsCompiled held → (from : List ℕ)
        → start_name (parser_rules held.grammar.parser) (start_of_bytes start.now) ≡ Some from
        → ((result ≡ TEXT_TOO_LONG) ↔ (max_text_bytes < length text.now))) }
    ensures limited { IfSome (held_explainer explainer.old.content) (λ held. IsCompiled held → result ≡ STEP_LIMIT
        → ExplainingTakesMoreSteps (parser_rules held.grammar.parser) text.now (start_of_bytes start.now)
        (step_limit steps)) }
    ensures enough { IfSome (held_explainer explainer.old.content) (λ held. IsCompiled held → memo ≡ 0
        → result ≤ FAILED → ExplainingStaysWithin (parser_rules held.grammar.parser) text.now
        (start_of_bytes start.now) (step_limit steps)) }
    ensures within { IfSome (held_explainer explainer.old.content) (λ held. IsCompiled held → result ≤ FAILED
        → ExplainingAnswersWithin (parser_rules held.grammar.parser) text.now (start_of_bytes start.now)
        (step_limit steps)) }
{
    match explainer.take(alloc) {
        None => WRONG_HANDLE,
        Some(content) => {
            let status = explain_into(alloc, &content, name, text, start, memo, steps, out);
            *explainer = Handle::new(content);
            status
        }
    }
}

// Explains by a handle's content, and stores the explanation.
fn explain_into(
    alloc: Global,
    content: &Content,
    name: &[u8],
    text: &[u8],
    start: &[u8],
    memo: u32,
    steps: u64,
    out: &mut Handle,
) -> u32
    ensures unchanged { result ≢ FAILED → out.new.content ≡ out.old.content }
    ensures wrong { (result ≡ WRONG_HANDLE) ↔ (content_explainer content.now ≡ None) }
    ensures statuses { FAILED < result → NO_SUCH_START ≤ result }
    ensures greatest { result ≤ TEXT_TOO_LONG }
    ensures explained { IfSome (content_explainer content.now) (λ held. IsCompiled held → result ≡ FAILED
        → HoldsExplanationOf held.grammar name.now text.now (start_of_bytes start.now) out.new.content) }
    ensures whole { IfSome (content_explainer content.now) (λ held. IsCompiled held → result ≡ DONE
        → IsExplanationOf held.grammar name.now text.now (start_of_bytes start.now) None) }
    ensures no_start { IfSome (content_explainer content.now) (λ held. IsCompiled held
        → ((result ≡ NO_SUCH_START)
        ↔ (start_name (parser_rules held.grammar.parser) (start_of_bytes start.now) ≡ None))) }
    ensures long { IfSome (content_explainer content.now) (λ held. IsCompiled held → (from : List ℕ)
        → start_name (parser_rules held.grammar.parser) (start_of_bytes start.now) ≡ Some from
        → ((result ≡ TEXT_TOO_LONG) ↔ (max_text_bytes < length text.now))) }
    ensures limited { IfSome (content_explainer content.now) (λ held. IsCompiled held → result ≡ STEP_LIMIT
        → ExplainingTakesMoreSteps (parser_rules held.grammar.parser) text.now (start_of_bytes start.now)
        (step_limit steps)) }
    ensures enough { IfSome (content_explainer content.now) (λ held. IsCompiled held → memo ≡ 0
        → result ≤ FAILED → ExplainingStaysWithin (parser_rules held.grammar.parser) text.now
        (start_of_bytes start.now) (step_limit steps)) }
    ensures within { IfSome (content_explainer content.now) (λ held. IsCompiled held → result ≤ FAILED
        → ExplainingAnswersWithin (parser_rules held.grammar.parser) text.now (start_of_bytes start.now)
        (step_limit steps)) }
{
    match explain_by_explainer(alloc, content, name, text, start, memo, steps) {
        Ok(Some(explanation)) => {
            if store(alloc, Content::Explained(explanation), out) {
                FAILED
            } else {
                OUT_OF_MEMORY
            }
        }
        Ok(None) => DONE,
        Err(status) => status,
    }
}
