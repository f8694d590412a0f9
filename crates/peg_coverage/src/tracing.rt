//! Parses that note which rules are called.
ghost use Rattle.std.specs.Prelude.{◌≡◌, ◌≤◌, ℕ, Bool, List, Option, Some, length};
ghost use Rattle.peg_grammar.specs.Limits.{max_text_bytes};
ghost use Rattle.peg_grammar.specs.Outcomes.{parsed_of};
ghost use Rattle.peg_machine.specs.SelectedTests.{shown_result};
ghost use Rattle.peg_parser.specs.Engine.{shown_parser_rules};
ghost use Rattle.peg_parser.specs.Parser.{start_named};
ghost use Rattle.peg_semantics.specs.Record.{Recognition};
ghost use Rattle.peg_coverage.specs.Covered.{match_of};
ghost use Rattle.peg_coverage.specs.TracedTexts.{IsTracedParse};

use crate::called_rules::CalledRules;
use crate::text_match::TextMatch;
use peg_parser::{ParseFault, ParseOptions, ShownParser};
use peg_tree::Parsed;
use std::alloc::Global;

/// A text that was parsed: which rules were called, and how much of the text matches.
#[derive(Drop)]
pub(crate) struct TracedText {
    pub(crate) called: CalledRules,
    pub(crate) found: TextMatch,
}

/// Parses a text, and notes the rules that are called. With a memo, the parse runs without it first, as `Parser::parse`
/// does. The text must be at most as long as a text may be. The other errors are those of `Parser::parse`.
pub(crate) fn trace_text(
    alloc: Global,
    parser: &ShownParser,
    text: &[u8],
    options: &ParseOptions<'_>,
) -> Result<TracedText, ParseFault>
    requires short { length text.now ≤ max_text_bytes }
    ensures parse { IsTracedParse (shown_parser_rules parser.now) text.now (start_named options.now)
        (options.now.memo ≡ 0) options.now.steps result }
{
    if options.memo == 0 {
        return trace_once(alloc, parser, text, options);
    }
    let plain = ParseOptions {
        start: options.start,
        memo: 0,
        steps: Some(plain_steps(text.len(), options.steps)),
    };
    match trace_once(alloc, parser, text, &plain) {
        Err(ParseFault::StepLimit) => trace_once(alloc, parser, text, options),
        result => result,
    }
}

// The run without a memo may take `PLAIN_STEPS_BASE` steps, and `PLAIN_STEPS_PER_BYTE` for each byte of the text. These
// are the numbers of `Parser::parse`.
const PLAIN_STEPS_BASE: u64 = 4_096;

const PLAIN_STEPS_PER_BYTE: u64 = 64;

// The step limit of the run without a memo: at most the limit of the parse.
fn plain_steps(bytes: usize, max_steps: Option<u64>) -> u64
    requires { bytes ≤ max_text_bytes }
    ensures { (limit : ℕ) → max_steps ≡ Some limit → result ≤ limit }
{
    let plain = PLAIN_STEPS_BASE + PLAIN_STEPS_PER_BYTE * bytes as u64;
    match max_steps {
        Some(limit) => limit.min(plain),
        None => plain,
    }
}

// Parses a text in one run, and notes the rules that are called.
fn trace_once(
    alloc: Global,
    parser: &ShownParser,
    text: &[u8],
    options: &ParseOptions<'_>,
) -> Result<TracedText, ParseFault>
    requires short { length text.now ≤ max_text_bytes }
    ensures parse { IsTracedParse (shown_parser_rules parser.now) text.now (start_named options.now)
        (options.now.memo ≡ 0) options.now.steps result }
{
    let mut called = CalledRules::new(alloc, parser.grammar().rules())?;
    match parser.trace(alloc, text, options, &mut called) {
        Ok(answer) => Ok(TracedText {
            called,
            found: match_of_result(&answer.outcome.result, text.len()),
        }),
        Err(fault) => Err(fault),
    }
}

// How much of a text with this length matches.
fn match_of_result(parsed: &Parsed, bytes: usize) -> TextMatch
    ensures { (shown : Option (List Bool)) (r : Recognition) → parsed.now ≡ parsed_of (shown_result shown r)
        → result ≡ match_of bytes r }
{
    match parsed {
        Parsed::Matched { end, .. } => {
            if *end as usize == bytes {
                TextMatch::Whole
            } else {
                TextMatch::Prefix
            }
        }
        Parsed::Failed => TextMatch::Failed,
    }
}
