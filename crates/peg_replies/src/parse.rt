//! The line of a parse.
ghost use Rattle.std.specs.Prelude.{◌≡◌, ℕ, ◌<◌, ◌≤◌, Bool, List, IfOk, None, OnOk, Option, length};
ghost use Rattle.peg_code.specs.ShownRules.{is_shown_by};
ghost use Rattle.peg_grammar.specs.GrammarRules.{rules_in};
ghost use Rattle.peg_grammar.specs.Limits.{max_text_bytes};
ghost use Rattle.peg_json.specs.Lines.{IsLineOf, IsReply, line_bytes};
ghost use Rattle.peg_json.specs.Parses.{ParsesToAsked, PrintsOutcomeAsked};
ghost use Rattle.peg_json.specs.Reply.{Refused};
ghost use Rattle.peg_json.specs.Statuses.{status_code};
ghost use Rattle.peg_parser.specs.Cause.{NoSuchStart, TextTooLong};
ghost use Rattle.peg_parser.specs.Engine.{rules_shown, shown_parser_rules};
ghost use Rattle.peg_parser.specs.Fits.{Fits};
ghost use Rattle.peg_parser.specs.ParseContract.{IsParse};
ghost use Rattle.peg_parser.specs.Parser.{parser_rules, start_named};
ghost use Rattle.peg_replies.specs.Commands.{nodes_asked};
ghost use Rattle.peg_replies.specs.PrintedNodes.{ShowsPrinted, shown_by};

use crate::nodes::{Nodes, listed_rules, other_rules};
use crate::tree_printing::TreePrinting;
use peg_grammar::{Grammar, MAX_TEXT_BYTES};
use peg_json::{
    Line, TreeForm, answer_line, answer_line_with_text, long_text_line, no_start_line,
    step_limit_line,
};
use peg_parser::{Answer, ParseFault, ParseOptions, Parser, ShownParser};
use peg_tree::RuleSet;
use peg_tree::laws::{a_selected_tree_has_no_other_rules, selecting_all_rules_changes_nothing};
use std::alloc::{AllocError, Global};

/// Returns the line of a parse of a text, with these nodes of its tree. No other nodes are made. A text that is too
/// long is reported before a start that no rule has.
pub(crate) fn parse_line(
    alloc: Global,
    parser: Parser,
    text: &[u8],
    options: &ParseOptions<'_>,
    printing: TreePrinting<'_>,
) -> Result<Line, AllocError>
    ensures { (file : List ℕ) → IfOk result (λ line. IsLineOf file
        (ParsesToAsked (parser_rules parser) text.now (start_named options.now) options.now.memo options.now.steps
        printing.entry.all printing.entry.form (shown_by (parser_rules parser) (nodes_asked printing.entry.nodes))
        printing.entry.with_bytes)
        (line_bytes line) (status_code line.status)) }
{
    let set = printed_rules(alloc, parser.grammar(), printing)?;
    shown_line(alloc, parser.showing(set), text, options, printing)
}

/// Returns the set of the rules whose nodes are printed, or `None` for all. Without a printed tree it is empty.
pub(crate) fn printed_rules(
    alloc: Global,
    grammar: &Grammar,
    printing: TreePrinting<'_>,
) -> Result<Option<RuleSet>, AllocError>
    ensures { IfOk result (λ set. ShowsPrinted (rules_in grammar.now) set printing.entry.form
        (nodes_asked printing.entry.nodes)) }
{
    match printing.form {
        TreeForm::NoTree => Ok(Some(RuleSet::none(alloc, grammar.rules())?)),
        TreeForm::Nested | TreeForm::Rows => asked_rules(alloc, grammar, printing.nodes),
    }
}

// The set of the rules of these nodes, or `None` for all.
fn asked_rules(
    alloc: Global,
    grammar: &Grammar,
    nodes: Nodes<'_>,
) -> Result<Option<RuleSet>, AllocError>
    ensures { IfOk result (λ set. (rule : ℕ) → rule < length (rules_in grammar.now)
        → is_shown_by set rule ≡ shown_by (rules_in grammar.now) (nodes_asked nodes.entry) rule) }
{
    match nodes {
        Nodes::All => Ok(None),
        Nodes::Show(list) => Ok(Some(listed_rules(alloc, grammar, list)?)),
        Nodes::Hide(list) => Ok(Some(other_rules(alloc, grammar, list)?)),
    }
}

// The line of a parse by a parser that shows the nodes to print.
fn shown_line(
    alloc: Global,
    parser: ShownParser,
    text: &[u8],
    options: &ParseOptions<'_>,
    printing: TreePrinting<'_>,
) -> Result<Line, AllocError>
    requires { ShowsPrinted (shown_parser_rules parser) (rules_shown parser) printing.form
        (nodes_asked printing.nodes) }
    ensures { (file : List ℕ) → IfOk result (λ line. IsLineOf file
        (ParsesToAsked (shown_parser_rules parser) text.now (start_named options.now) options.now.memo
        options.now.steps printing.entry.all printing.entry.form
        (shown_by (shown_parser_rules parser) (nodes_asked printing.entry.nodes)) printing.entry.with_bytes)
        (line_bytes line) (status_code line.status)) }
{
    let parsed = parser.parse(alloc, text, options);
    parsed_line(
        alloc,
        &parser.into_parser(),
        parsed,
        text,
        options,
        printing,
    )
}

/// Returns the line of what a parse has returned, by a parser that shows the nodes to print. `parser` is that of the
/// same grammar.
pub(crate) fn parsed_line(
    alloc: Global,
    parser: &Parser,
    parsed: Result<Answer, ParseFault>,
    text: &[u8],
    options: &ParseOptions<'_>,
    printing: TreePrinting<'_>,
) -> Result<Line, AllocError>
    requires fits { IfOk parsed (λ answer. Fits (parser_rules parser.now) answer.outcome) }
    requires short { OnOk parsed (length text.now ≤ max_text_bytes) }
    ensures { (shown : Option (List Bool)) (file : List ℕ)
        → ShowsPrinted (parser_rules parser.now) shown printing.entry.form (nodes_asked printing.entry.nodes)
        → IsParse shown None (parser_rules parser.now) text.now (start_named options.now) (options.now.memo ≡ 0)
        options.now.steps parsed → IfOk result (λ line. IsLineOf file
        (ParsesToAsked (parser_rules parser.now) text.now (start_named options.now) options.now.memo
        options.now.steps printing.entry.all printing.entry.form
        (shown_by (parser_rules parser.now) (nodes_asked printing.entry.nodes)) printing.entry.with_bytes)
        (line_bytes line) (status_code line.status)) }
{
    selecting_all_rules_changes_nothing();
    a_selected_tree_has_no_other_rules();
    match parsed {
        Ok(answer) => tree_line(alloc, parser, answer, text, printing),
        // A grammar has a first rule, so a start that is missing was given by name.
        Err(ParseFault::NoSuchStart) => no_start(alloc, text, options.start.unwrap_or("")),
        Err(ParseFault::TextTooLong) => long_text_line(alloc),
        Err(ParseFault::StepLimit) => step_limit_line(alloc),
        Err(ParseFault::Memory) => Err(AllocError),
    }
}

// The line for a start that no rule has, unless the text is too long.
pub(crate) fn no_start(alloc: Global, text: &[u8], name: &str) -> Result<Line, AllocError>
    ensures long { max_text_bytes < length text.now → (file : List ℕ) → IfOk result
        (λ line. IsReply file (Refused TextTooLong) (line_bytes line) (status_code line.status)) }
    ensures missing { length text.now ≤ max_text_bytes → (file : List ℕ) → IfOk result
        (λ line. IsReply file (Refused (NoSuchStart name.now)) (line_bytes line) (status_code line.status)) }
{
    if text.len() > MAX_TEXT_BYTES {
        return long_text_line(alloc);
    }
    no_start_line(alloc, name)
}

// The line of an answer with its tree, and with the bytes of the text if they are asked for.
fn tree_line(
    alloc: Global,
    parser: &Parser,
    answer: Answer,
    text: &[u8],
    printing: TreePrinting<'_>,
) -> Result<Line, AllocError>
    requires fits { Fits (parser_rules parser.now) answer.outcome }
    requires short { length text.now ≤ max_text_bytes }
    ensures { (file : List ℕ) → IfOk result (λ line. IsLineOf file (PrintsOutcomeAsked (parser_rules parser.now)
        answer.outcome text.now printing.entry.all printing.entry.form printing.entry.with_bytes) (line_bytes line)
        (status_code line.status)) }
{
    let TreePrinting {
        all,
        form,
        with_bytes,
        ..
    } = printing;
    if with_bytes {
        answer_line_with_text(alloc, parser, &answer, text, all, form)
    } else {
        answer_line(alloc, parser, answer, text.len() as u32, all, form)
    }
}
