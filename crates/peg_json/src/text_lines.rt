//! The lines of answers whose trees have the bytes of the text.
ghost use Rattle.std.specs.Prelude.{◌≡◌, ◌↔◌, ◌<◌, ◌≤◌, ℕ, List, IfOk, length, string_bytes};
ghost use Rattle.serde_json.specs.Written.{compact_text};
ghost use Rattle.peg_semantics.specs.Rules.{Rule, names};
ghost use Rattle.peg_grammar.specs.GrammarRules.{rules_in};
ghost use Rattle.peg_grammar.specs.Limits.{max_text_bytes};
ghost use Rattle.peg_tree.specs.Nodes.{RulesBelow};
ghost use Rattle.peg_parser.specs.Parser.{parser_rules};
ghost use Rattle.peg_parser.specs.Fits.{Fits};
ghost use Rattle.peg_json.specs.Lines.{IsLineOf, line_bytes};
ghost use Rattle.peg_json.specs.Parses.{IsDeep, PrintsOutcomeWithText, outcome_reply};
ghost use Rattle.peg_json.specs.Reply.{matched_data, printed, text_tree_member, with_text};
ghost use Rattle.peg_json.specs.Sending.{spans_of};
ghost use Rattle.peg_json.specs.Statuses.{status_code};

use crate::answer_object::{Match, Summary};
use crate::answer_text::{answer_status, failed_text};
use crate::expected_spans::ExpectedSpans;
use crate::fault::Fault;
use crate::line::Line;
use crate::lines::fault_line;
use crate::tree_form::TreeForm;
use peg_grammar::Grammar;
use peg_listings::text_of;
use peg_parser::{Answer, Parser};
use peg_tree::{FlatTextTree, JsonFault, MAX_LEVELS, NestedTextTree, Parsed, Tree};
use std::alloc::{AllocError, Global};

/// Returns the line of an answer with its tree in this form, or that the tree is too deep for the form. Each node
/// without children has its bytes of `text`, as a string if they are UTF-8 and otherwise as hexadecimal digits.
///
/// Linear in the tree, the length of its rules' names, and the text of its nodes without children. The whole line is in
/// memory. The only error is a failed allocation.
pub fn answer_line_with_text(
    alloc: Global,
    parser: &Parser,
    answer: &Answer,
    text: &[u8],
    all: bool,
    form: TreeForm,
) -> Result<Line, AllocError>
    requires fits { Fits (parser_rules parser.now) answer.now.outcome }
    requires short { length text.now ≤ max_text_bytes }
    ensures { (file : List ℕ) → IfOk result (λ line. IsLineOf file
        (PrintsOutcomeWithText (parser_rules parser.now) answer.now.outcome text.now all form)
        (line_bytes line) (status_code line.status)) }
{
    let status = answer_status(answer, text.len() as u32, all);
    match json_with_text(alloc, parser, answer, text, all, form) {
        Ok(json) => Ok(Line::new(json, status)),
        Err(JsonFault::TooDeep) => fault_line(alloc, &Fault::TooDeep, &[], &[]),
        Err(JsonFault::Memory) => Err(AllocError),
    }
}

// The JSON of an answer, with its tree in this form and the bytes of the text.
fn json_with_text(
    alloc: Global,
    parser: &Parser,
    answer: &Answer,
    text: &[u8],
    all: bool,
    form: TreeForm,
) -> Result<String, JsonFault>
    requires fits { Fits (parser_rules parser.now) answer.now.outcome }
    requires short { length text.now ≤ max_text_bytes }
    ensures json { (file : List ℕ) → IfOk result (λ json. string_bytes json ≡ compact_text (printed file (with_text
        text.now (outcome_reply (parser_rules parser.now) answer.now.outcome (length text.now) all form)))) }
    ensures too_deep { (result ≡ Err JsonFault.TooDeep)
        ↔ ((form ≡ TreeForm.Nested) × IsDeep answer.now.outcome.result) }
{
    let outcome = &answer.outcome;
    let expected = ExpectedSpans::new(parser, &outcome.expected);
    match &outcome.result {
        Parsed::Failed => Ok(failed_text(alloc, outcome.far, expected)?),
        Parsed::Matched { tree, .. } if form == TreeForm::Nested && tree.depth() > MAX_LEVELS => {
            Err(JsonFault::TooDeep)
        }
        Parsed::Matched { end, tree } => {
            let partial = all && *end < text.len() as u32;
            let summary = Summary {
                partial,
                end: *end,
                far: outcome.far,
                expected,
            };
            let grammar = parser.grammar();
            Ok(matched_with_text(alloc, summary, grammar, tree, text, form)?)
        }
    }
}

// The JSON of a match, with its tree in this form and the bytes of the text.
fn matched_with_text(
    alloc: Global,
    summary: Summary<'_>,
    grammar: &Grammar,
    tree: &Tree,
    text: &[u8],
    form: TreeForm,
) -> Result<String, AllocError>
    requires { RulesBelow (length (rules_in grammar.now)) tree.now }
    ensures { IfOk result (λ json. string_bytes json ≡ compact_text
        (matched_data summary.entry.partial summary.entry.end summary.entry.far (spans_of summary.entry.expected)
        (text_tree_member form (names (rules_in grammar.now)) text.now tree.now))) }
{
    match form {
        TreeForm::Rows => text_of(
            alloc,
            &Match {
                summary,
                key: "rows",
                tree: FlatTextTree::new(alloc, tree, grammar, text),
            },
        ),
        TreeForm::Nested => text_of(
            alloc,
            &Match {
                summary,
                key: "tree",
                tree: NestedTextTree::new(alloc, tree, grammar, text),
            },
        ),
        TreeForm::NoTree => text_of(alloc, &summary),
    }
}
