//! The bodies of the calls that print about a handle's grammar.
ghost use Rattle.std.specs.Prelude.{◌≡◌, ◌≢◌, ◌≤◌, ◌<◌, ◌↔◌, ℕ, IfErr, IfOk, IfSome, IsErrOf, None, Some, bytes_eq};
ghost use Rattle.std.specs.Prelude.{length, min, position, slice_get};
ghost use Rattle.peg_handle.specs.Contents.{content_grammar, content_line, content_rules};
ghost use Rattle.peg_handle.specs.PrintedLines.{IsCodeLine, IsLintLine, IsTableLine};
ghost use Rattle.peg_handle.specs.Starts.{start_of_bytes};
ghost use Rattle.peg_json.specs.Lints.{start_number};
ghost use Rattle.peg_lint.specs.FileWarnings.{selection_of};
ghost use Rattle.peg_semantics.specs.Rules.{names};

use crate::buffers::copy_text;
use crate::content::{Content, PrintedLine};
use crate::printing::{print_code, print_table, print_warnings};
use crate::start::number_named;
use crate::status::{DONE, NO_SUCH_RULE, NO_SUCH_START, OUT_OF_MEMORY, WRONG_HANDLE, fault_status};
use peg_lint::Selection;
use std::alloc::Global;

/// Writes the number of the rule with this name.
pub fn write_rule_number(content: &Content, name: &[u8], out: &mut u32) -> u32
    ensures statuses { result ≢ DONE → result ≢ WRONG_HANDLE → result ≡ NO_SUCH_RULE }
    ensures done { result ≡ DONE → IfSome (content_rules content.now) (λ rules.
        position (bytes_eq name.now) (names rules) ≡ Some out.new) }
    ensures wrong { (result ≡ WRONG_HANDLE) ↔ (content_rules content.now ≡ None) }
    ensures none { IfSome (content_rules content.now) (λ rules.
        (result ≡ NO_SUCH_RULE) ↔ (position (bytes_eq name.now) (names rules) ≡ None)) }
    ensures unchanged { result ≢ DONE → out.new ≡ out.old }
{
    match content {
        Content::Accepted(grammar) => match number_named(grammar.parser.grammar(), name) {
            Some(rule) => {
                *out = rule;
                DONE
            }
            None => NO_SUCH_RULE,
        },
        _ => WRONG_HANDLE,
    }
}

/// Returns the line of the code of a handle's grammar. An error is a status.
pub fn print_code_of(alloc: Global, content: &Content) -> Result<PrintedLine, u32>
    ensures wrong { IsErrOf result WRONG_HANDLE ↔ (content_rules content.now ≡ None) }
    ensures line { IfSome (content_grammar content.now) (λ grammar. IfOk result (IsCodeLine grammar)) }
    ensures statuses { IfErr result (λ status. status ≢ WRONG_HANDLE → status ≡ OUT_OF_MEMORY) }
{
    match content {
        Content::Accepted(grammar) => match print_code(alloc, grammar) {
            Ok(line) => Ok(line),
            Err(_) => Err(OUT_OF_MEMORY),
        },
        _ => Err(WRONG_HANDLE),
    }
}

/// Returns the line of the outcomes of the rules of a handle's grammar. An error is a status.
pub fn print_table_of(alloc: Global, content: &Content) -> Result<PrintedLine, u32>
    ensures wrong { IsErrOf result WRONG_HANDLE ↔ (content_rules content.now ≡ None) }
    ensures line { IfSome (content_grammar content.now) (λ grammar. IfOk result (IsTableLine grammar)) }
    ensures statuses { IfErr result (λ status. status ≢ WRONG_HANDLE → status ≡ OUT_OF_MEMORY) }
{
    match content {
        Content::Accepted(grammar) => match print_table(alloc, grammar) {
            Ok(line) => Ok(line),
            Err(_) => Err(OUT_OF_MEMORY),
        },
        _ => Err(WRONG_HANDLE),
    }
}

/// Returns the line of the warnings about a handle's grammar, whose texts are parsed from the rule that `start` names,
/// or from the first rule if `start` is empty. With `proved` there are only those of proved kinds. An error is a status.
pub fn print_warnings_of(
    alloc: Global,
    content: &Content,
    start: &[u8],
    proved: bool,
) -> Result<PrintedLine, u32>
    ensures wrong { IsErrOf result WRONG_HANDLE ↔ (content_rules content.now ≡ None) }
    ensures line { IfSome (content_grammar content.now) (λ grammar.
        IfOk result (IsLintLine grammar (start_of_bytes start.now) (selection_of proved))) }
    ensures no_start { IfSome (content_rules content.now) (λ rules.
        IsErrOf result NO_SUCH_START ↔ (start_number rules (start_of_bytes start.now) ≡ None)) }
    ensures statuses { IfErr result (λ status. status ≢ WRONG_HANDLE → status ≢ NO_SUCH_START → status ≡ OUT_OF_MEMORY) }
{
    match content {
        Content::Accepted(grammar) => {
            match print_warnings(alloc, grammar, start, Selection::from_proved(proved)) {
                Ok(line) => Ok(line),
                Err(fault) => Err(fault_status(fault)),
            }
        }
        _ => Err(WRONG_HANDLE),
    }
}

/// Copies the start of a line, as much as fits, and returns the length of the whole line. The length is 0 if there is
/// no line.
pub fn copy_line_of(content: &Content, out: &mut [u8]) -> usize
    ensures length { result ≡ length (content_line content.now) }
    ensures copied { (place : ℕ) → place < min (length out.old) result
        → slice_get out.new place ≡ slice_get (content_line content.now) place }
    ensures rest { (place : ℕ) → min (length out.old) result ≤ place
        → slice_get out.new place ≡ slice_get out.old place }
{
    match content {
        Content::Printed(line) => copy_text(line.json.as_bytes(), out),
        _ => 0,
    }
}
