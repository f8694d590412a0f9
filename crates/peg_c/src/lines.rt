//! Lines that pegtool prints about a grammar, and calls on line handles.
ghost use Rattle.std.specs.Prelude.{◌≡◌, ◌≢◌, ◌==◌, ◌≤◌, ◌<◌, ◌↔◌, ℕ, IfErr, IfOk, IfSome, None, OnErr, OnOk, length, min, not};
ghost use Rattle.std.specs.Prelude.{slice_get, Some};
ghost use Rattle.peg_c.specs.Handles.{HoldsLine, held_grammar, held_line, held_rules};
ghost use Rattle.peg_handle.specs.PrintedLines.{IsCodeLine, IsLintLine, IsTableLine};
ghost use Rattle.peg_handle.specs.Starts.{start_of_bytes};
ghost use Rattle.peg_handle.specs.declared.content.Content.TheVariants.{Printed};
ghost use Rattle.peg_json.specs.Lints.{start_number};
ghost use Rattle.peg_lint.specs.FileWarnings.{selection_of};

use crate::handle::Handle;
use crate::sharing::share;
use crate::store::store;
use peg_handle::{
    Content, DONE, NO_SUCH_START, OUT_OF_MEMORY, PrintedLine, WRONG_HANDLE, copy_line_of,
    print_code_of, print_table_of, print_warnings_of,
};
use std::alloc::Global;

/// Makes the line of a grammar's code, as `pegtool code` prints it.
#[unsafe(no_mangle)]
pub extern "C" fn peg_code(alloc: Global, grammar: &mut Handle, out: &mut Handle) -> u32
    ensures kept { grammar.new.content ≡ grammar.old.content }
    ensures statuses { result ≢ DONE → result ≢ WRONG_HANDLE → result ≡ OUT_OF_MEMORY }
    ensures wrong { (result ≡ WRONG_HANDLE) ↔ (held_rules grammar.old.content ≡ None) }
    ensures line { result ≡ DONE → IfSome (held_grammar grammar.old.content) (λ file.
        HoldsLine (IsCodeLine file) out.new.content) }
    ensures unchanged { result ≢ DONE → out.new.content ≡ out.old.content }
{
    match grammar.take(alloc) {
        None => WRONG_HANDLE,
        Some(content) => {
            let status = store_line(alloc, print_code_of(alloc, &content), out);
            *grammar = Handle::new(content);
            status
        }
    }
}

/// Makes the line of the outcomes of a grammar's rules, as `pegtool table` prints it.
#[unsafe(no_mangle)]
pub extern "C" fn peg_table(alloc: Global, grammar: &mut Handle, out: &mut Handle) -> u32
    ensures kept { grammar.new.content ≡ grammar.old.content }
    ensures statuses { result ≢ DONE → result ≢ WRONG_HANDLE → result ≡ OUT_OF_MEMORY }
    ensures wrong { (result ≡ WRONG_HANDLE) ↔ (held_rules grammar.old.content ≡ None) }
    ensures line { result ≡ DONE → IfSome (held_grammar grammar.old.content) (λ file.
        HoldsLine (IsTableLine file) out.new.content) }
    ensures unchanged { result ≢ DONE → out.new.content ≡ out.old.content }
{
    match grammar.take(alloc) {
        None => WRONG_HANDLE,
        Some(content) => {
            let status = store_line(alloc, print_table_of(alloc, &content), out);
            *grammar = Handle::new(content);
            status
        }
    }
}

/// Makes the line of the warnings about a grammar, as `pegtool lint` prints it. Texts are parsed from the rule that
/// `start` names, or from the first rule if `start` is empty. If `proved` isn't 0, there are only proved kinds.
#[unsafe(no_mangle)]
pub extern "C" fn peg_lint(
    alloc: Global,
    grammar: &mut Handle,
    start: &[u8],
    proved: u32,
    out: &mut Handle,
) -> u32
    ensures kept { grammar.new.content ≡ grammar.old.content }
    ensures statuses { result ≢ DONE → result ≢ WRONG_HANDLE → result ≢ NO_SUCH_START → result ≡ OUT_OF_MEMORY }
    ensures wrong { (result ≡ WRONG_HANDLE) ↔ (held_rules grammar.old.content ≡ None) }
    ensures no_start { IfSome (held_rules grammar.old.content) (λ rules.
        (result ≡ NO_SUCH_START) ↔ (start_number rules (start_of_bytes start.now) ≡ None)) }
    ensures line { result ≡ DONE → IfSome (held_grammar grammar.old.content) (λ file. HoldsLine
        (IsLintLine file (start_of_bytes start.now) (selection_of (not (proved == 0)))) out.new.content) }
    ensures unchanged { result ≢ DONE → out.new.content ≡ out.old.content }
{
    match grammar.take(alloc) {
        None => WRONG_HANDLE,
        Some(content) => {
            let made = print_warnings_of(alloc, &content, start, proved != 0);
            let status = store_line(alloc, made, out);
            *grammar = Handle::new(content);
            status
        }
    }
}

/// Stores a line in a handle, or returns the status that says why there is none.
pub(crate) fn store_line(alloc: Global, made: Result<PrintedLine, u32>, out: &mut Handle) -> u32
    requires { IfErr made (λ status. status ≢ DONE) }
    ensures stored { IfOk made (λ line. result ≡ DONE → out.new.content ≡ Some (Printed line)) }
    ensures memory { OnOk made (result ≢ DONE → result ≡ OUT_OF_MEMORY) }
    ensures failed { IfErr made (λ status. result ≡ status) }
    ensures unchanged { result ≢ DONE → out.new.content ≡ out.old.content }
{
    match made {
        Ok(line) => {
            if store(alloc, Content::Printed(line), out) {
                DONE
            } else {
                OUT_OF_MEMORY
            }
        }
        Err(status) => status,
    }
}

/// Makes `out` another handle of the same line. The two handles own it together, and may be used and freed by different
/// threads. Constant time, but for what `out` held before.
#[unsafe(no_mangle)]
pub extern "C" fn peg_line_share(alloc: Global, line: &mut Handle, out: &mut Handle) -> u32
    ensures kept { line.new.content ≡ line.old.content }
    ensures statuses { result ≢ DONE → result ≢ WRONG_HANDLE → result ≡ OUT_OF_MEMORY }
    ensures shared { result ≡ DONE → out.new.content ≡ line.old.content }
    ensures wrong { (result ≡ WRONG_HANDLE) ↔ (line.old.content ≡ None) }
    ensures unchanged { result ≢ DONE → out.new.content ≡ out.old.content }
{
    share(alloc, line, out)
}

/// Leaves a handle null, and frees its content if no other handle owns it.
#[unsafe(no_mangle)]
pub extern "C" fn peg_line_free(alloc: Global, line: &mut Handle)
    ensures { line.new.content ≡ None }
{
    *line = Handle::null(alloc);
}

/// Copies the start of a line, as much as fits. Returns the length of the whole line.
#[unsafe(no_mangle)]
pub extern "C" fn peg_line_text(alloc: Global, line: &mut Handle, out: &mut [u8]) -> usize
    ensures kept { line.new.content ≡ line.old.content }
    ensures length { result ≡ length (held_line line.old.content) }
    ensures copied { (place : ℕ) → place < min (length out.old) result
        → slice_get out.new place ≡ slice_get (held_line line.old.content) place }
    ensures rest { (place : ℕ) → min (length out.old) result ≤ place
        → slice_get out.new place ≡ slice_get out.old place }
{
    match line.take(alloc) {
        None => 0,
        Some(content) => {
            let length = copy_line_of(&content, out);
            *line = Handle::new(content);
            length
        }
    }
}
