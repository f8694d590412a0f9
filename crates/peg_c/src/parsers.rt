//! Parsers whose trees have the nodes of chosen rules, and calls on parser handles.
ghost use Rattle.std.specs.Prelude.{◌≡◌, ◌≢◌, ◌≤◌, ◌<◌, ◌↔◌, ℕ, List, IfSome, None, Some, length};
ghost use Rattle.peg_c.specs.Handles.{HoldsFailed, HoldsMatched, HoldsSelectedAnswerTo, HoldsSelectingParserOf};
ghost use Rattle.peg_c.specs.Handles.{HoldsWithin, held_parser};
ghost use Rattle.peg_grammar.specs.Limits.{max_text_bytes};
ghost use Rattle.peg_handle.specs.Contents.{content_parser};
ghost use Rattle.peg_handle.specs.Rejections.{IsRejectionOf};
ghost use Rattle.peg_handle.specs.Starts.{start_of_bytes, step_limit};
ghost use Rattle.peg_handle.specs.declared.content.Rejection.{Rejection};
ghost use Rattle.peg_parser.specs.Engine.{rules_shown, shown_parser_rules};
ghost use Rattle.peg_parser.specs.StepLimits.{TakesMoreSteps};
ghost use Rattle.peg_semantics.specs.Starts.{start_name};

use crate::handle::Handle;
use crate::matches::status_of;
use crate::sharing::share;
use crate::store::store;
use peg_handle::{
    Content, DONE, FAILED, NO_SUCH_START, OUT_OF_MEMORY, REFUSED, ReadFault, STEP_LIMIT,
    TEXT_TOO_LONG, WRONG_HANDLE, parse_by_selecting, read_selecting,
};
use std::alloc::Global;

/// Reads a grammar file for parses whose trees have the nodes of the rules that `shown` shows. The handle then holds the
/// parser.
#[unsafe(no_mangle)]
pub extern "C" fn peg_parser_read(alloc: Global, file: &[u8], shown: &[u8], out: &mut Handle) -> u32
    ensures statuses { result ≢ DONE → result ≢ REFUSED → result ≡ OUT_OF_MEMORY }
    ensures accepted { result ≡ DONE → HoldsSelectingParserOf file.now shown.now out.new.content }
    ensures refused { result ≡ REFUSED → (rejection : Rejection) × IsRejectionOf file.now rejection }
    ensures unchanged { result ≢ DONE → out.new.content ≡ out.old.content }
{
    match read_selecting(alloc, file, shown) {
        Ok(parser) => {
            if store(alloc, Content::Selecting(parser), out) {
                DONE
            } else {
                OUT_OF_MEMORY
            }
        }
        Err(ReadFault::Rejected(_)) => REFUSED,
        Err(ReadFault::Memory) => OUT_OF_MEMORY,
    }
}

/// Makes `out` another handle of the same parser. The two handles own it together, and may be used and freed by
/// different threads. Constant time, but for what `out` held before.
#[unsafe(no_mangle)]
pub extern "C" fn peg_parser_share(alloc: Global, parser: &mut Handle, out: &mut Handle) -> u32
    ensures kept { parser.new.content ≡ parser.old.content }
    ensures statuses { result ≢ DONE → result ≢ WRONG_HANDLE → result ≡ OUT_OF_MEMORY }
    ensures shared { result ≡ DONE → out.new.content ≡ parser.old.content }
    ensures wrong { (result ≡ WRONG_HANDLE) ↔ (parser.old.content ≡ None) }
    ensures unchanged { result ≢ DONE → out.new.content ≡ out.old.content }
{
    share(alloc, parser, out)
}

/// Leaves a handle null, and frees its content if no other handle owns it.
#[unsafe(no_mangle)]
pub extern "C" fn peg_parser_free(alloc: Global, parser: &mut Handle)
    ensures { parser.new.content ≡ None }
{
    *parser = Handle::null(alloc);
}

/// Parses a prefix of a text as `peg_parse` does, by a parser handle.
#[unsafe(no_mangle)]
pub extern "C" fn peg_parser_parse(
    alloc: Global,
    parser: &mut Handle,
    text: &[u8],
    start: &[u8],
    memo: u32,
    steps: u64,
    out: &mut Handle,
) -> u32
    ensures kept { parser.new.content ≡ parser.old.content }
    ensures unchanged { FAILED < result → out.new.content ≡ out.old.content }

    // With an answer, the handle holds Ford's outcome, with the nodes of the shown rules.
    ensures answer { result ≤ FAILED → IfSome (held_parser parser.old.content) (λ held. HoldsSelectedAnswerTo
        (rules_shown held.parser) (shown_parser_rules held.parser) text.now start.now memo out.new.content) }
    ensures matched { result ≡ DONE → HoldsMatched out.new.content }
    ensures failed { result ≡ FAILED → HoldsFailed out.new.content }
    ensures within { result ≤ FAILED → (limit : ℕ) → step_limit steps ≡ Some limit → HoldsWithin limit out.new.content }

    // Each other status, and when it comes. An allocation may fail at any time.
    ensures wrong { (result ≡ WRONG_HANDLE) ↔ (held_parser parser.old.content ≡ None) }
    ensures no_start { IfSome (held_parser parser.old.content) (λ held. (result ≡ NO_SUCH_START)
        ↔ (start_name (shown_parser_rules held.parser) (start_of_bytes start.now) ≡ None)) }
    ensures long { IfSome (held_parser parser.old.content) (λ held. (name : List ℕ)
        → start_name (shown_parser_rules held.parser) (start_of_bytes start.now) ≡ Some name
        → ((result ≡ TEXT_TOO_LONG) ↔ (max_text_bytes < length text.now))) }
    ensures limited { IfSome (held_parser parser.old.content) (λ held. result ≡ STEP_LIMIT
        → TakesMoreSteps (shown_parser_rules held.parser) text.now (start_of_bytes start.now) (step_limit steps)) }
    ensures enough { IfSome (held_parser parser.old.content) (λ held. memo ≡ 0 → result ≤ FAILED
        → ¬ TakesMoreSteps (shown_parser_rules held.parser) text.now (start_of_bytes start.now) (step_limit steps)) }
    ensures statuses { FAILED < result → NO_SUCH_START ≤ result }
    ensures greatest { result ≤ TEXT_TOO_LONG }
{
    match parser.take(alloc) {
        None => WRONG_HANDLE,
        Some(content) => {
            let status = parse_into(alloc, &content, text, start, memo, steps, out);
            *parser = Handle::new(content);
            status
        }
    }
}

// Parses by a handle's content, and stores the answer.
fn parse_into(
    alloc: Global,
    content: &Content,
    text: &[u8],
    start: &[u8],
    memo: u32,
    steps: u64,
    out: &mut Handle,
) -> u32
    ensures unchanged { FAILED < result → out.new.content ≡ out.old.content }
    ensures answer { result ≤ FAILED → IfSome (content_parser content.now) (λ held. HoldsSelectedAnswerTo
        (rules_shown held.parser) (shown_parser_rules held.parser) text.now start.now memo out.new.content) }
    ensures matched { result ≡ DONE → HoldsMatched out.new.content }
    ensures failed { result ≡ FAILED → HoldsFailed out.new.content }
    ensures within { result ≤ FAILED → (limit : ℕ) → step_limit steps ≡ Some limit → HoldsWithin limit out.new.content }
    ensures wrong { (result ≡ WRONG_HANDLE) ↔ (content_parser content.now ≡ None) }
    ensures no_start { IfSome (content_parser content.now) (λ held. (result ≡ NO_SUCH_START)
        ↔ (start_name (shown_parser_rules held.parser) (start_of_bytes start.now) ≡ None)) }
    ensures long { IfSome (content_parser content.now) (λ held. (name : List ℕ)
        → start_name (shown_parser_rules held.parser) (start_of_bytes start.now) ≡ Some name
        → ((result ≡ TEXT_TOO_LONG) ↔ (max_text_bytes < length text.now))) }
    ensures limited { IfSome (content_parser content.now) (λ held. result ≡ STEP_LIMIT
        → TakesMoreSteps (shown_parser_rules held.parser) text.now (start_of_bytes start.now) (step_limit steps)) }
    ensures enough { IfSome (content_parser content.now) (λ held. memo ≡ 0 → result ≤ FAILED
        → ¬ TakesMoreSteps (shown_parser_rules held.parser) text.now (start_of_bytes start.now) (step_limit steps)) }
    ensures statuses { FAILED < result → NO_SUCH_START ≤ result }
    ensures greatest { result ≤ TEXT_TOO_LONG }
{
    match parse_by_selecting(alloc, content, text, start, memo, steps) {
        Ok(found) => {
            let status = status_of(&found);
            if store(alloc, Content::Answered(found), out) {
                status
            } else {
                OUT_OF_MEMORY
            }
        }
        Err(status) => status,
    }
}
