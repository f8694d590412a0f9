//! The lines of answers whose trees are lists of nodes.
ghost use Rattle.std.specs.Prelude.{◌≡◌, ◌<◌, ◌&&◌, All, List, ℕ, IfOk, length, nat_lt, string_bytes};
ghost use Rattle.serde_json.specs.Written.{compact_text};
ghost use Rattle.peg_semantics.specs.Terminals.{extents_of_terminals};
ghost use Rattle.peg_parser.specs.Fits.{Fits};
ghost use Rattle.peg_parser.specs.Parser.{parser_rules};
ghost use Rattle.peg_json.specs.Lines.{IsLineOf, line_bytes};
ghost use Rattle.peg_json.specs.Parses.{PrintsOutcome, extents_at, outcome_reply};
ghost use Rattle.peg_json.specs.Reply.{expected_data, failed_data, match_word, printed_line};
ghost use Rattle.peg_json.specs.RowsHead.{rows_head};
ghost use Rattle.peg_json.specs.Statuses.{status_code};

use crate::answer_object::match_word;
use crate::answer_text::{answer_status, failed_text};
use crate::expected_spans::ExpectedSpans;
use crate::line::Line;
use crate::status::Status;
use crate::tree_form::TreeForm;
use peg_listings::text_of;
use peg_parser::{Answer, Parser};
use peg_tree::{FlatTreeWriter, Outcome, Parsed};
use std::alloc::{AllocError, Global};

/// Returns the line of an answer whose tree is a list of its nodes in preorder. The nodes are formatted piece by piece
/// later.
pub(crate) fn rows_line(
    alloc: Global,
    parser: &Parser,
    answer: Answer,
    text_len: u32,
    all: bool,
) -> Result<Line, AllocError>
    requires { Fits (parser_rules parser.now) answer.outcome }
    ensures { (file : List ℕ) → IfOk result (λ line. IsLineOf file
        (PrintsOutcome (parser_rules parser.now) answer.outcome text_len all TreeForm.Rows)
        (line_bytes line) (status_code line.status)) }
{
    let status = answer_status(&answer, text_len, all);
    outcome_line(alloc, parser, answer.outcome, text_len, all, status)
}

// The line of an outcome, with this exit status.
fn outcome_line(
    alloc: Global,
    parser: &Parser,
    outcome: Outcome,
    text_len: u32,
    all: bool,
    status: Status,
) -> Result<Line, AllocError>
    requires { Fits (parser_rules parser.now) outcome }
    ensures text { (file : List ℕ) → IfOk result (λ line. line_bytes line
        ≡ printed_line file (outcome_reply (parser_rules parser.now) outcome text_len all TreeForm.Rows)) }
    ensures status { IfOk result (λ line. line.status ≡ status) }
{
    let Outcome {
        result,
        far,
        expected,
    } = outcome;
    match result {
        Parsed::Failed => Ok(Line::new(failure(alloc, parser, far, &expected)?, status)),
        Parsed::Matched { end, tree } => {
            let partial = is_partial(all, end, text_len);
            let head = match_head(alloc, parser, partial, end, far, &expected)?;
            let rows = FlatTreeWriter::new(alloc, tree, parser.grammar())?;
            Ok(Line::with_rows(head, rows, status))
        }
    }
}

/// Returns whether the match is shorter than asked for.
pub(crate) fn is_partial(all: bool, end: u32, text_len: u32) -> bool
    ensures { result ≡ (all && nat_lt end text_len) }
{
    all && end < text_len
}

/// Returns the JSON of a failure of the terminals with these numbers.
pub(crate) fn failure(
    alloc: Global,
    parser: &Parser,
    far: u32,
    terminals: &[u32],
) -> Result<String, AllocError>
    requires { All (λ terminal. terminal < length (extents_of_terminals (parser_rules parser.now))) terminals.now }
    ensures { IfOk result (λ text. string_bytes text
        ≡ compact_text (failed_data far (extents_at (parser_rules parser.now) terminals.now))) }
{
    failed_text(alloc, far, ExpectedSpans::new(parser, terminals))
}

/// Returns the JSON of a match up to the opening bracket of the list of its nodes.
pub(crate) fn match_head(
    alloc: Global,
    parser: &Parser,
    partial: bool,
    end: u32,
    far: u32,
    terminals: &[u32],
) -> Result<String, AllocError>
    requires { All (λ terminal. terminal < length (extents_of_terminals (parser_rules parser.now))) terminals.now }
    ensures { IfOk result (λ text. string_bytes text ≡ rows_head (match_word partial) end far
        (compact_text (expected_data (extents_at (parser_rules parser.now) terminals.now)))) }
{
    let expected = expected_text(alloc, parser, terminals)?;
    rows_head(alloc, match_word(partial), end, far, expected.as_str())
}

fn rows_head(
    alloc: Global,
    word: &str,
    end: u32,
    far: u32,
    expected: &str,
) -> Result<String, AllocError>
    ensures { IfOk result (λ text. string_bytes text ≡ rows_head word.now end far expected.now) }
{
    format!(in alloc;
        "{{\"consumed\":{end},\"expected\":{expected},\"far\":{far},\"result\":\"{word}\",\"rows\":["
    )
}

// The JSON of the spans of the terminals with these numbers.
fn expected_text(alloc: Global, parser: &Parser, terminals: &[u32]) -> Result<String, AllocError>
    requires { All (λ terminal. terminal < length (extents_of_terminals (parser_rules parser.now))) terminals.now }
    ensures { IfOk result (λ text. string_bytes text
        ≡ compact_text (expected_data (extents_at (parser_rules parser.now) terminals.now))) }
{
    text_of(alloc, &ExpectedSpans::new(parser, terminals))
}
