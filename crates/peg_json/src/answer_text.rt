//! Answers as JSON.
ghost use Rattle.std.specs.Prelude.{◌≡◌, ◌↔◌, ◌<◌, ℕ, List, IfOk, false, length, string_bytes};
ghost use Rattle.serde_json.specs.Written.{compact_text};
ghost use Rattle.peg_semantics.specs.Rules.{Rule, names};
ghost use Rattle.peg_grammar.specs.GrammarRules.{rules_in};
ghost use Rattle.peg_tree.specs.Nodes.{RulesBelow};
ghost use Rattle.peg_parser.specs.Parser.{parser_rules};
ghost use Rattle.peg_parser.specs.Fits.{Fits};
ghost use Rattle.peg_json.specs.Parses.{IsDeep, outcome_reply};
ghost use Rattle.peg_json.specs.Reply.{failed_data, matched_data, printed, status_of, tree_member};
ghost use Rattle.peg_json.specs.Sending.{spans_of};
ghost use Rattle.peg_json.specs.Statuses.{status_code};
ghost use Rattle.peg_json.specs.TreeForms.{form_from_rows};
ghost use Rattle.peg_json.specs.declared.tree_form.TreeForm.{TreeForm};

use crate::answer_object::{Failure, Match, Summary};
use crate::expected_spans::ExpectedSpans;
use crate::status::Status;
use crate::tree_form::TreeForm;
use peg_grammar::Grammar;
use peg_listings::text_of;
use peg_parser::{Answer, Parser};
use peg_tree::{FlatTree, JsonFault, MAX_LEVELS, NestedTree, Parsed, Tree};
use std::alloc::{AllocError, Global};

/// Returns an answer as one line of JSON without its line end. With `all`, a match of less than the text's `text_len`
/// bytes is reported as partial. With `rows` the tree is a list of its nodes in preorder, otherwise nested objects.
///
/// Returns `TooDeep` for a nested tree of more than 60 levels. Terminals are reported by their spans in the grammar
/// file. Linear in the tree and the length of its rules' names. Allocates the line and the list of open nodes.
pub fn answer_json(
    alloc: Global,
    parser: &Parser,
    answer: &Answer,
    text_len: u32,
    all: bool,
    rows: bool,
) -> Result<String, JsonFault>
    requires { Fits (parser_rules parser.now) answer.now.outcome }
    ensures text { (file : List ℕ) → IfOk result (λ text. string_bytes text
        ≡ compact_text (printed file
        (outcome_reply (parser_rules parser.now) answer.now.outcome text_len all (form_from_rows rows)))) }
    ensures too_deep { (result ≡ Err JsonFault.TooDeep) ↔ ((rows ≡ false) × IsDeep answer.now.outcome.result) }
{
    answer_text(
        alloc,
        parser,
        answer,
        text_len,
        all,
        TreeForm::from_rows(rows),
    )
}

/// Returns an answer as JSON, with the tree in this form.
pub(crate) fn answer_text(
    alloc: Global,
    parser: &Parser,
    answer: &Answer,
    text_len: u32,
    all: bool,
    form: TreeForm,
) -> Result<String, JsonFault>
    requires { Fits (parser_rules parser.now) answer.now.outcome }
    ensures text { (file : List ℕ) → IfOk result (λ text. string_bytes text ≡ compact_text
        (printed file (outcome_reply (parser_rules parser.now) answer.now.outcome text_len all form))) }
    ensures too_deep { (result ≡ Err JsonFault.TooDeep)
        ↔ ((form ≡ TreeForm.Nested) × IsDeep answer.now.outcome.result) }
{
    let outcome = &answer.outcome;
    let expected = ExpectedSpans::new(parser, &outcome.expected);
    match &outcome.result {
        Parsed::Failed => Ok(failed_text(alloc, outcome.far, expected)?),
        Parsed::Matched { tree, .. } if form == TreeForm::Nested && tree.depth() > MAX_LEVELS => {
            Err(JsonFault::TooDeep)
        }
        Parsed::Matched { end, tree } => {
            let partial = all && *end < text_len;
            let summary = Summary {
                partial,
                end: *end,
                far: outcome.far,
                expected,
            };
            Ok(matched_text(alloc, summary, parser.grammar(), tree, form)?)
        }
    }
}

// The JSON of a failure.
pub(crate) fn failed_text(
    alloc: Global,
    far: u32,
    expected: ExpectedSpans<'_>,
) -> Result<String, AllocError>
    ensures { IfOk result (λ text. string_bytes text ≡ compact_text (failed_data far (spans_of expected.entry))) }
{
    text_of(alloc, &Failure { far, expected })
}

// The JSON of a match, with its tree in this form.
fn matched_text(
    alloc: Global,
    summary: Summary<'_>,
    grammar: &Grammar,
    tree: &Tree,
    form: TreeForm,
) -> Result<String, AllocError>
    requires { RulesBelow (length (rules_in grammar.now)) tree.now }
    ensures { IfOk result (λ text. string_bytes text ≡ compact_text
        (matched_data summary.entry.partial summary.entry.end summary.entry.far (spans_of summary.entry.expected)
        (tree_member form (names (rules_in grammar.now)) tree.now))) }
{
    match form {
        TreeForm::Rows => text_of(
            alloc,
            &Match {
                summary,
                key: "rows",
                tree: FlatTree::new(alloc, tree, grammar),
            },
        ),
        TreeForm::Nested => text_of(
            alloc,
            &Match {
                summary,
                key: "tree",
                tree: NestedTree::new(alloc, tree, grammar),
            },
        ),
        TreeForm::NoTree => text_of(alloc, &summary),
    }
}

/// Returns the exit status of an answer.
pub(crate) fn answer_status(answer: &Answer, text_len: u32, all: bool) -> Status
    ensures { (rules : List Rule) (form : TreeForm) →
        status_code result ≡ status_of (outcome_reply rules answer.now.outcome text_len all form) }
{
    match &answer.outcome.result {
        Parsed::Failed => Status::Failed,
        Parsed::Matched { end, .. } if all && *end < text_len => Status::Failed,
        Parsed::Matched { .. } => Status::Done,
    }
}
