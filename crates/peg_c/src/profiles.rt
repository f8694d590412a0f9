//! Profiles of parses, by a parser handle.
ghost use Rattle.std.specs.Prelude.{◌≡◌, ◌≢◌, ◌<◌, ◌↔◌, ℕ, List, IfSome, None, Some, length};
ghost use Rattle.peg_c.specs.Handles.{HoldsLine, held_parser};
ghost use Rattle.peg_grammar.specs.Limits.{max_text_bytes};
ghost use Rattle.peg_handle.specs.PrintedLines.{IsProfileLine};
ghost use Rattle.peg_handle.specs.Starts.{start_of_bytes, step_limit};
ghost use Rattle.peg_parser.specs.Engine.{shown_parser_rules};
ghost use Rattle.peg_semantics.specs.Starts.{start_name};

use crate::handle::Handle;
use crate::lines::store_line;
use peg_handle::{
    DONE, NO_SUCH_START, OUT_OF_MEMORY, TEXT_TOO_LONG, WRONG_HANDLE, print_profile_of,
};
use std::alloc::Global;

/// Makes the line of the profile of a text's parse, as `pegtool profile` prints it. A parse that takes more steps than
/// the limit is stopped there, and has a profile, too.
#[unsafe(no_mangle)]
pub extern "C" fn peg_parser_profile(
    alloc: Global,
    parser: &mut Handle,
    text: &[u8],
    start: &[u8],
    memo: u32,
    steps: u64,
    out: &mut Handle,
) -> u32
    ensures kept { parser.new.content ≡ parser.old.content }
    ensures line { result ≡ DONE → IfSome (held_parser parser.old.content) (λ held. HoldsLine
        (IsProfileLine held text.now (start_of_bytes start.now) memo (step_limit steps)) out.new.content) }
    ensures unchanged { result ≢ DONE → out.new.content ≡ out.old.content }

    // Each other status, and when it comes. An allocation may fail at any time.
    ensures wrong { (result ≡ WRONG_HANDLE) ↔ (held_parser parser.old.content ≡ None) }
    ensures no_start { IfSome (held_parser parser.old.content) (λ held. (result ≡ NO_SUCH_START)
        ↔ (start_name (shown_parser_rules held.parser) (start_of_bytes start.now) ≡ None)) }
    ensures long { IfSome (held_parser parser.old.content) (λ held. (name : List ℕ)
        → start_name (shown_parser_rules held.parser) (start_of_bytes start.now) ≡ Some name
        → ((result ≡ TEXT_TOO_LONG) ↔ (max_text_bytes < length text.now))) }
    ensures statuses { result ≢ DONE → result ≢ WRONG_HANDLE → result ≢ NO_SUCH_START → result ≢ TEXT_TOO_LONG
        → result ≡ OUT_OF_MEMORY }
{
    match parser.take(alloc) {
        None => WRONG_HANDLE,
        Some(content) => {
            let made = print_profile_of(alloc, &content, text, start, memo, steps);
            let status = store_line(alloc, made, out);
            *parser = Handle::new(content);
            status
        }
    }
}
