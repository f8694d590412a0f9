//! Calls on grammar handles.
ghost use Rattle.std.specs.Prelude.{◌≡◌, ◌≢◌, ◌≤◌, ◌<◌, ◌↔◌, ℕ, IfSome, None, Some, bytes_eq, length, min, position};
ghost use Rattle.std.specs.Prelude.{slice_get};
ghost use Rattle.peg_c.specs.Handles.{HoldsParserOf, HoldsRejectionOf, held_info, held_json, held_name, held_reason};
ghost use Rattle.peg_c.specs.Handles.{held_rules};
ghost use Rattle.peg_semantics.specs.Rules.{names};

use crate::handle::Handle;
use crate::sharing::share;
use crate::store::store;
use peg_handle::{
    Content, DONE, NO_SUCH_RULE, OUT_OF_MEMORY, REFUSED, ReadFault, RefusalInfo, WRONG_HANDLE,
    copy_json_of, copy_name_of, copy_reason_of, read, write_info, write_rule_count,
    write_rule_number,
};
use std::alloc::Global;

/// Reads a grammar file. The handle then holds its parser, or why it is rejected.
#[unsafe(no_mangle)]
pub extern "C" fn peg_grammar_read(alloc: Global, file: &[u8], out: &mut Handle) -> u32
    ensures statuses { result ≢ DONE → result ≢ REFUSED → result ≡ OUT_OF_MEMORY }
    ensures accepted { result ≡ DONE → HoldsParserOf file.now out.new.content }
    ensures refused { result ≡ REFUSED → HoldsRejectionOf file.now out.new.content }
    ensures unchanged { result ≡ OUT_OF_MEMORY → out.new.content ≡ out.old.content }
{
    match read(alloc, file) {
        Ok(grammar) => {
            if store(alloc, Content::Accepted(grammar), out) {
                DONE
            } else {
                OUT_OF_MEMORY
            }
        }
        Err(ReadFault::Rejected(rejection)) => {
            if store(alloc, Content::Rejected(rejection), out) {
                REFUSED
            } else {
                OUT_OF_MEMORY
            }
        }
        Err(ReadFault::Memory) => OUT_OF_MEMORY,
    }
}

/// Makes `out` another handle of the same grammar or refusal. The two handles own it together, and may be used and
/// freed by different threads. Constant time, but for what `out` held before.
#[unsafe(no_mangle)]
pub extern "C" fn peg_grammar_share(alloc: Global, grammar: &mut Handle, out: &mut Handle) -> u32
    ensures kept { grammar.new.content ≡ grammar.old.content }
    ensures statuses { result ≢ DONE → result ≢ WRONG_HANDLE → result ≡ OUT_OF_MEMORY }
    ensures shared { result ≡ DONE → out.new.content ≡ grammar.old.content }
    ensures wrong { (result ≡ WRONG_HANDLE) ↔ (grammar.old.content ≡ None) }
    ensures unchanged { result ≢ DONE → out.new.content ≡ out.old.content }
{
    share(alloc, grammar, out)
}

/// Leaves a handle null, and frees its content if no other handle owns it.
#[unsafe(no_mangle)]
pub extern "C" fn peg_grammar_free(alloc: Global, grammar: &mut Handle)
    ensures { grammar.new.content ≡ None }
{
    *grammar = Handle::null(alloc);
}

/// Copies the start of the line of JSON that says why a file is rejected. Returns the length of the whole line.
#[unsafe(no_mangle)]
pub extern "C" fn peg_grammar_refusal(alloc: Global, grammar: &mut Handle, out: &mut [u8]) -> usize
    ensures kept { grammar.new.content ≡ grammar.old.content }
    ensures length { result ≡ length (held_json grammar.old.content) }
    ensures copied { (place : ℕ) → place < min (length out.old) result
        → slice_get out.new place ≡ slice_get (held_json grammar.old.content) place }
    ensures rest { (place : ℕ) → min (length out.old) result ≤ place
        → slice_get out.new place ≡ slice_get out.old place }
{
    match grammar.take(alloc) {
        None => 0,
        Some(content) => {
            let length = copy_json_of(&content, out);
            *grammar = Handle::new(content);
            length
        }
    }
}

/// Copies the start of the message that says why a file is rejected, after the name of the file. Returns the length of
/// the whole message.
#[unsafe(no_mangle)]
pub extern "C" fn peg_grammar_message(alloc: Global, grammar: &mut Handle, out: &mut [u8]) -> usize
    ensures kept { grammar.new.content ≡ grammar.old.content }
    ensures length { result ≡ length (held_reason grammar.old.content) }
    ensures copied { (place : ℕ) → place < min (length out.old) result
        → slice_get out.new place ≡ slice_get (held_reason grammar.old.content) place }
    ensures rest { (place : ℕ) → min (length out.old) result ≤ place
        → slice_get out.new place ≡ slice_get out.old place }
{
    match grammar.take(alloc) {
        None => 0,
        Some(content) => {
            let length = copy_reason_of(&content, out);
            *grammar = Handle::new(content);
            length
        }
    }
}

/// Writes the kind of a refusal, and where in the file its reason is.
#[unsafe(no_mangle)]
pub extern "C" fn peg_grammar_refusal_info(
    alloc: Global,
    grammar: &mut Handle,
    out: &mut RefusalInfo,
) -> u32
    ensures kept { grammar.new.content ≡ grammar.old.content }
    ensures statuses { result ≢ DONE → result ≡ WRONG_HANDLE }
    ensures done { result ≡ DONE → held_info grammar.old.content ≡ Some out.new }
    ensures wrong { result ≡ WRONG_HANDLE → held_info grammar.old.content ≡ None }
    ensures unchanged { result ≡ WRONG_HANDLE → out.new ≡ out.old }
{
    match grammar.take(alloc) {
        None => WRONG_HANDLE,
        Some(content) => {
            let status = write_info(&content, out);
            *grammar = Handle::new(content);
            status
        }
    }
}

/// Writes the number of rules of a grammar.
#[unsafe(no_mangle)]
pub extern "C" fn peg_rule_count(alloc: Global, grammar: &mut Handle, out: &mut u32) -> u32
    ensures kept { grammar.new.content ≡ grammar.old.content }
    ensures statuses { result ≢ DONE → result ≡ WRONG_HANDLE }
    ensures done { result ≡ DONE → IfSome (held_rules grammar.old.content) (λ rules. out.new ≡ length rules) }
    ensures wrong { (result ≡ WRONG_HANDLE) ↔ (held_rules grammar.old.content ≡ None) }
    ensures unchanged { result ≡ WRONG_HANDLE → out.new ≡ out.old }
{
    match grammar.take(alloc) {
        None => WRONG_HANDLE,
        Some(content) => {
            let status = write_rule_count(&content, out);
            *grammar = Handle::new(content);
            status
        }
    }
}

/// Copies the start of a rule's name. Returns the length of the whole name.
#[unsafe(no_mangle)]
pub extern "C" fn peg_rule_name(
    alloc: Global,
    grammar: &mut Handle,
    rule: u32,
    out: &mut [u8],
) -> usize
    ensures kept { grammar.new.content ≡ grammar.old.content }
    ensures length { result ≡ length (held_name grammar.old.content rule) }
    ensures copied { (place : ℕ) → place < min (length out.old) result
        → slice_get out.new place ≡ slice_get (held_name grammar.old.content rule) place }
    ensures rest { (place : ℕ) → min (length out.old) result ≤ place
        → slice_get out.new place ≡ slice_get out.old place }
{
    match grammar.take(alloc) {
        None => 0,
        Some(content) => {
            let length = copy_name_of(&content, rule, out);
            *grammar = Handle::new(content);
            length
        }
    }
}

/// Writes the number of the rule with a name.
#[unsafe(no_mangle)]
pub extern "C" fn peg_rule_number(
    alloc: Global,
    grammar: &mut Handle,
    name: &[u8],
    out: &mut u32,
) -> u32
    ensures kept { grammar.new.content ≡ grammar.old.content }
    ensures statuses { result ≢ DONE → result ≢ WRONG_HANDLE → result ≡ NO_SUCH_RULE }
    ensures done { result ≡ DONE → IfSome (held_rules grammar.old.content) (λ rules.
        position (bytes_eq name.now) (names rules) ≡ Some out.new) }
    ensures wrong { (result ≡ WRONG_HANDLE) ↔ (held_rules grammar.old.content ≡ None) }
    ensures none { IfSome (held_rules grammar.old.content) (λ rules.
        (result ≡ NO_SUCH_RULE) ↔ (position (bytes_eq name.now) (names rules) ≡ None)) }
    ensures unchanged { result ≢ DONE → out.new ≡ out.old }
{
    match grammar.take(alloc) {
        None => WRONG_HANDLE,
        Some(content) => {
            let status = write_rule_number(&content, name, out);
            *grammar = Handle::new(content);
            status
        }
    }
}
