//! Parses of texts.
ghost use Rattle.std.specs.Prelude.{◌≡◌, ◌≤◌, ◌<◌, ℕ, All, IfOk, length, map, Some};
ghost use Rattle.peg_handle.specs.Answers.{IsAnswerTo};
ghost use Rattle.peg_handle.specs.FileSpans.{file_span};
ghost use Rattle.peg_handle.specs.Starts.{start_of_bytes, step_limit};
ghost use Rattle.peg_json.specs.Parses.{extents_at};
ghost use Rattle.peg_parser.specs.Fits.{Fits};
ghost use Rattle.peg_parser.specs.ParseContract.{HasParseFaults, HasStepLimit};
ghost use Rattle.peg_parser.specs.Parser.{parser_rules};
ghost use Rattle.peg_semantics.specs.Terminals.{extents_of_terminals};
ghost use Rattle.peg_handle.specs.Levels.{parsed_levels};

use crate::content::{FileSpan, Match};
use crate::levels::node_levels;
use crate::start::{limit_from, start_from};
use peg_parser::{Answer, ParseFault, ParseOptions, Parser};
use peg_tree::Parsed;
use std::alloc::{AllocError, Global};

/// Parses a prefix of a text from the rule that `start` names, or from the first rule if `start` is empty. `steps` is
/// the step limit, or 0 for no limit. See `Parser::parse`.
pub fn parse(
    alloc: Global,
    parser: &Parser,
    text: &[u8],
    start: &[u8],
    memo: u32,
    steps: u64,
) -> Result<Match, ParseFault>
    ensures answer { IfOk result (IsAnswerTo (parser_rules parser.now) text.now start.now memo) }
    ensures faults { HasParseFaults (parser_rules parser.now) text.now (start_of_bytes start.now) result }

    // The step limit: an answer stays within it. Without a memo there is no answer if more steps are needed.
    ensures allowed { IfOk result (λ found. (limit : ℕ) → step_limit steps ≡ Some limit → found.answer.steps ≤ limit) }
    ensures limit { HasStepLimit (parser_rules parser.now) text.now (start_of_bytes start.now) (memo ≡ 0)
        (step_limit steps) result }
{
    let start = start_from(parser.grammar(), start)?;
    let options = ParseOptions {
        start,
        memo,
        steps: limit_from(steps),
    };
    let answer = parser.parse(alloc, text, &options)?;
    let found = match_of(alloc, parser, answer)?;
    Ok(found)
}

// The answer of a parser, with the spans of the expected terminals and the levels of the nodes.
fn match_of(alloc: Global, parser: &Parser, answer: Answer) -> Result<Match, AllocError>
    requires { Fits (parser_rules parser.now) answer.outcome }
    ensures answer { IfOk result (λ found. found.answer ≡ answer) }
    ensures expected { IfOk result (λ found. found.expected.items
        ≡ map file_span (extents_at (parser_rules parser.now) answer.outcome.expected.items)) }
{
    let expected = spans_of(alloc, parser, &answer.outcome.expected)?;
    let levels = levels_in(alloc, &answer.outcome.result)?;
    Ok(Match {
        answer,
        expected,
        levels,
    })
}

// The levels of the nodes of a result.
pub(crate) fn levels_in(alloc: Global, parsed: &Parsed) -> Result<Vec<usize>, AllocError>
    ensures { IfOk result (λ levels. levels.items ≡ parsed_levels parsed.now) }
{
    match parsed {
        Parsed::Matched { tree, .. } => node_levels(alloc, tree),
        Parsed::Failed => Ok(Vec::new(alloc)),
    }
}

// The spans of terminals in the grammar file.
fn spans_of(alloc: Global, parser: &Parser, terminals: &[u32]) -> Result<Vec<FileSpan>, AllocError>
    requires { All (λ terminal. terminal < length (extents_of_terminals (parser_rules parser.now))) terminals.now }
    ensures { IfOk result (λ spans. spans.items
        ≡ map file_span (extents_at (parser_rules parser.now) terminals.now)) }
{
    let mut spans = Vec::new(alloc);
    'spans: for i in 0..terminals.len() {
        let terminal = terminals[i];
        let span = parser.terminal_span(terminal);
        spans.push(FileSpan {
            start: span.start,
            end: span.end,
        })?;
    }
    Ok(spans)
}
