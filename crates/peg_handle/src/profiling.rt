//! Lines of profiles.
ghost use Rattle.std.specs.Prelude.{◌≡◌, ◌≢◌, ◌<◌, ◌↔◌, ℕ, IfErr, IfOk, IfSome, IsErrOf, List, None, Some, length};
ghost use Rattle.peg_grammar.specs.Limits.{max_text_bytes};
ghost use Rattle.peg_handle.specs.Contents.{content_parser};
ghost use Rattle.peg_handle.specs.PrintedLines.{IsProfileLine};
ghost use Rattle.peg_handle.specs.Starts.{start_of_bytes, step_limit};
ghost use Rattle.peg_parser.specs.Engine.{shown_parser_rules};
ghost use Rattle.peg_parser.specs.ParseContract.{HasParseFaults};
ghost use Rattle.peg_semantics.specs.Starts.{start_name};

use crate::content::{Content, PrintedLine, SelectingParser};
use crate::start::{limit_from, start_from};
use crate::status::{NO_SUCH_START, OUT_OF_MEMORY, TEXT_TOO_LONG, WRONG_HANDLE, fault_status};
use peg_json::profile_json;
use peg_parser::{ParseFault, ParseOptions};
use peg_profile::Profile;
use std::alloc::Global;

/// Returns the line of the profile of a text's parse, as `pegtool profile` prints it. The arguments are those of
/// `parse`. A parse that takes more steps than the limit is stopped there, and has a profile, too.
pub fn print_profile(
    alloc: Global,
    selecting: &SelectingParser,
    text: &[u8],
    start: &[u8],
    memo: u32,
    steps: u64,
) -> Result<PrintedLine, ParseFault>
    ensures line { IfOk result
        (IsProfileLine selecting.now text.now (start_of_bytes start.now) memo (step_limit steps)) }
    ensures faults { HasParseFaults (shown_parser_rules selecting.now.parser) text.now (start_of_bytes start.now) result }
    ensures unlimited { ¬ IsErrOf result ParseFault.StepLimit }
{
    let grammar = selecting.parser.grammar();
    let start = start_from(grammar, start)?;
    let options = ParseOptions {
        start,
        memo,
        steps: limit_from(steps),
    };
    let profile = Profile::of_text(alloc, &selecting.parser, text, &options)?;
    let json = profile_json(alloc, grammar, &profile)?;
    Ok(PrintedLine { json })
}

/// Returns the line of the profile of a text's parse by a handle's selecting parser. An error is a status.
pub fn print_profile_of(
    alloc: Global,
    content: &Content,
    text: &[u8],
    start: &[u8],
    memo: u32,
    steps: u64,
) -> Result<PrintedLine, u32>
    ensures wrong { IsErrOf result WRONG_HANDLE ↔ (content_parser content.now ≡ None) }
    ensures line { IfSome (content_parser content.now) (λ selecting. IfOk result
        (IsProfileLine selecting text.now (start_of_bytes start.now) memo (step_limit steps))) }
    ensures no_start { IfSome (content_parser content.now) (λ selecting. IsErrOf result NO_SUCH_START
        ↔ (start_name (shown_parser_rules selecting.parser) (start_of_bytes start.now) ≡ None)) }
    ensures long { IfSome (content_parser content.now) (λ selecting. (name : List ℕ)
        → start_name (shown_parser_rules selecting.parser) (start_of_bytes start.now) ≡ Some name
        → (IsErrOf result TEXT_TOO_LONG ↔ (max_text_bytes < length text.now))) }
    ensures statuses { IfErr result (λ status. status ≢ WRONG_HANDLE → status ≢ NO_SUCH_START
        → status ≢ TEXT_TOO_LONG → status ≡ OUT_OF_MEMORY) }
{
    match content {
        Content::Selecting(parser) => {
            match print_profile(alloc, parser, text, start, memo, steps) {
                Ok(line) => Ok(line),
                Err(fault) => Err(fault_status(fault)),
            }
        }
        _ => Err(WRONG_HANDLE),
    }
}
