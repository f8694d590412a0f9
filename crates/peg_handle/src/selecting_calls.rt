//! The bodies of the calls that parse by a handle's selecting parser.
ghost use Rattle.std.specs.Prelude.{◌≡◌, ◌≤◌, ◌<◌, ◌↔◌, ℕ, IfErr, IfOk, IfSome, IsErrOf, List, None, OnOk, Some, length};
ghost use Rattle.peg_grammar.specs.Limits.{max_text_bytes};
ghost use Rattle.peg_handle.specs.Answers.{IsSelectedAnswerTo};
ghost use Rattle.peg_handle.specs.Contents.{content_parser};
ghost use Rattle.peg_handle.specs.Starts.{start_of_bytes, step_limit};
ghost use Rattle.peg_parser.specs.Engine.{rules_shown, shown_parser_rules};
ghost use Rattle.peg_parser.specs.StepLimits.{TakesMoreSteps};
ghost use Rattle.peg_semantics.specs.Starts.{start_name};

use crate::content::{Content, Match};
use crate::selecting::parse_selecting;
use crate::status::{NO_SUCH_START, STEP_LIMIT, TEXT_TOO_LONG, WRONG_HANDLE, fault_status};
use std::alloc::Global;

/// Parses a prefix of a text by a handle's selecting parser. An error is a status from `NO_SUCH_START` to
/// `TEXT_TOO_LONG`.
pub fn parse_by_selecting(
    alloc: Global,
    content: &Content,
    text: &[u8],
    start: &[u8],
    memo: u32,
    steps: u64,
) -> Result<Match, u32>
    ensures wrong { IsErrOf result WRONG_HANDLE ↔ (content_parser content.now ≡ None) }
    ensures answer { IfSome (content_parser content.now) (λ selecting. IfOk result (IsSelectedAnswerTo
        (rules_shown selecting.parser) (shown_parser_rules selecting.parser) text.now start.now memo)) }
    ensures no_start { IfSome (content_parser content.now) (λ selecting. IsErrOf result NO_SUCH_START
        ↔ (start_name (shown_parser_rules selecting.parser) (start_of_bytes start.now) ≡ None)) }
    ensures long { IfSome (content_parser content.now) (λ selecting. (name : List ℕ)
        → start_name (shown_parser_rules selecting.parser) (start_of_bytes start.now) ≡ Some name
        → (IsErrOf result TEXT_TOO_LONG ↔ (max_text_bytes < length text.now))) }

    // The step limit: an answer stays within it. Without a memo there is no answer if more steps are needed.
    ensures allowed { IfOk result (λ found. (limit : ℕ) → step_limit steps ≡ Some limit → found.answer.steps ≤ limit) }
    ensures limited { IfSome (content_parser content.now) (λ selecting. IsErrOf result STEP_LIMIT
        → TakesMoreSteps (shown_parser_rules selecting.parser) text.now (start_of_bytes start.now) (step_limit steps)) }
    ensures enough { IfSome (content_parser content.now) (λ selecting. memo ≡ 0
        → OnOk result (¬ TakesMoreSteps (shown_parser_rules selecting.parser) text.now (start_of_bytes start.now)
        (step_limit steps))) }
    ensures least { IfErr result (λ status. NO_SUCH_START ≤ status) }
    ensures greatest { IfErr result (λ status. status ≤ TEXT_TOO_LONG) }
{
    match content {
        Content::Selecting(parser) => match parse_selecting(
            alloc, parser, text, start, memo, steps,
        ) {
            Ok(found) => Ok(found),
            Err(fault) => Err(fault_status(fault)),
        },
        _ => Err(WRONG_HANDLE),
    }
}
