//! Parses whose trees have the nodes of chosen rules.
ghost use Rattle.std.specs.Prelude.{◌≡◌, ◌≤◌, ◌<◌, ℕ, All, IfErr, IfOk, List, length, map, None, Some};
ghost use Rattle.peg_grammar.specs.GrammarRules.{rules_in};
ghost use Rattle.peg_handle.specs.Answers.{IsSelectedAnswerTo};
ghost use Rattle.peg_handle.specs.FileSpans.{file_span};
ghost use Rattle.peg_handle.specs.ReadFaults.{IsRejectedBy};
ghost use Rattle.peg_handle.specs.Selections.{Selects, shows};
ghost use Rattle.peg_handle.specs.Starts.{start_of_bytes, step_limit};
ghost use Rattle.peg_json.specs.Parses.{extents_at};
ghost use Rattle.peg_parser.specs.Accepts.{Accepts};
ghost use Rattle.peg_parser.specs.Engine.{rules_shown, shown_parser_rules};
ghost use Rattle.peg_parser.specs.ParseContract.{HasParseFaults, HasStepLimit, IsParse};
ghost use Rattle.peg_parser.specs.Parser.{parser_rules, start_named};
ghost use Rattle.peg_parser.specs.Sessions.{IsSessionOf};
ghost use Rattle.peg_semantics.specs.Rules.{Rule};
ghost use Rattle.peg_semantics.specs.Terminals.{extents_of_terminals};
ghost use Rattle.peg_tree.specs.Selected.{has_rule};

use crate::content::{FileSpan, GrammarFile, Match, SelectingParser};
use crate::parsing::levels_in;
use crate::reading::{ReadFault, read};
use crate::start::{limit_from, start_from};
use peg_core::desugar;
use peg_grammar::Grammar;
use peg_parser::{Answer, ParseFault, ParseOptions, Parser, Session};
use peg_tree::RuleSet;
use std::alloc::{AllocError, Global};

/// Returns the parser of a grammar file whose trees have the root and the nodes of the rules that bytes show, or why the
/// file is rejected. Byte `i` shows rule number `i` if it isn't 0; a rule without a byte isn't shown.
pub fn read_selecting(
    alloc: Global,
    file: &[u8],
    shown: &[u8],
) -> Result<SelectingParser, ReadFault>
    ensures accepted { IfOk result (λ parser. Accepts file.now (shown_parser_rules parser.parser)) }
    ensures selects { IfOk result (Selects shown.now) }
    ensures rejected { IfErr result (IsRejectedBy file.now) }
{
    let GrammarFile { parser, .. } = read(alloc, file)?;
    Ok(select(alloc, parser, shown)?)
}

// Returns the parser whose trees have the nodes of the rules that bytes show.
fn select(alloc: Global, parser: Parser, shown: &[u8]) -> Result<SelectingParser, AllocError>
    ensures rules { IfOk result (λ selecting. shown_parser_rules selecting.parser ≡ parser_rules parser) }
    ensures selects { IfOk result (Selects shown.now) }
{
    let grammar = parser.grammar();
    let terminals = terminal_spans(alloc, grammar)?;
    let set = shown_rules(alloc, grammar.rules(), shown)?;
    Ok(SelectingParser {
        parser: parser.showing(Some(set)),
        terminals,
    })
}

// Returns the spans of a grammar's terminals in its file.
fn terminal_spans(alloc: Global, grammar: &Grammar) -> Result<Vec<FileSpan>, AllocError>
    ensures { IfOk result (λ spans. spans.items ≡ map file_span (extents_of_terminals (rules_in grammar.now))) }
{
    let core = desugar(alloc, grammar)?;
    let mut spans = Vec::new(alloc);
    'terminals: for terminal in 0..core.terminals() {
        let span = core.terminal_span(terminal);
        spans.push(FileSpan {
            start: span.start,
            end: span.end,
        })?;
    }
    Ok(spans)
}

// Returns the set of the rules that bytes show, of a grammar with this many rules.
fn shown_rules(alloc: Global, count: u32, shown: &[u8]) -> Result<RuleSet, AllocError>
    ensures { IfOk result (λ set. (rule : ℕ) → rule < count → has_rule set rule ≡ shows shown.now rule) }
{
    let mut set = RuleSet::none(alloc, count)?;
    'rules: for rule in 0..count {
        if is_shown(shown, rule) {
            set.insert(rule);
        }
    }
    Ok(set)
}

// Returns whether bytes show a rule.
fn is_shown(shown: &[u8], rule: u32) -> bool
    ensures { result ≡ shows shown.now rule }
{
    match shown.get(rule as usize) {
        Some(byte) => *byte != 0,
        None => false,
    }
}

/// Parses a prefix of a text as `parse` does. The tree has the root and the nodes of the rules that the parser selects.
/// Nodes of other rules aren't made.
pub fn parse_selecting(
    alloc: Global,
    selecting: &SelectingParser,
    text: &[u8],
    start: &[u8],
    memo: u32,
    steps: u64,
) -> Result<Match, ParseFault>
    ensures answer { IfOk result (IsSelectedAnswerTo (rules_shown selecting.now.parser)
        (shown_parser_rules selecting.now.parser) text.now start.now memo) }
    ensures faults { HasParseFaults (shown_parser_rules selecting.now.parser) text.now (start_of_bytes start.now) result }
    ensures allowed { IfOk result (λ found. (limit : ℕ) → step_limit steps ≡ Some limit → found.answer.steps ≤ limit) }
    ensures limit { HasStepLimit (shown_parser_rules selecting.now.parser) text.now (start_of_bytes start.now) (memo ≡ 0)
        (step_limit steps) result }
{
    let mut session = selecting.parser.session(alloc);
    parse_by_session(alloc, selecting, &mut session, text, start, memo, steps)
}

/// Parses a prefix of a text as `parse_selecting` does, by a session of the parser.
pub(crate) fn parse_by_session(
    alloc: Global,
    selecting: &SelectingParser,
    session: &mut Session<'_>,
    text: &[u8],
    start: &[u8],
    memo: u32,
    steps: u64,
) -> Result<Match, ParseFault>
    requires { IsSessionOf selecting.now.parser session.old }
    ensures answer { IfOk result (IsSelectedAnswerTo (rules_shown selecting.now.parser)
        (shown_parser_rules selecting.now.parser) text.now start.now memo) }
    ensures faults { HasParseFaults (shown_parser_rules selecting.now.parser) text.now (start_of_bytes start.now) result }
    ensures allowed { IfOk result (λ found. (limit : ℕ) → step_limit steps ≡ Some limit → found.answer.steps ≤ limit) }
    ensures limit { HasStepLimit (shown_parser_rules selecting.now.parser) text.now (start_of_bytes start.now) (memo ≡ 0)
        (step_limit steps) result }
    ensures session { IsSessionOf selecting.now.parser session.new }
{
    let start = start_from(selecting.parser.grammar(), start)?;
    let options = ParseOptions {
        start,
        memo,
        steps: limit_from(steps),
    };
    let answer = parse_next(alloc, selecting, session, text, &options)?;
    let found = selected_match(alloc, &selecting.terminals, answer)?;
    Ok(found)
}

// Parses a prefix of a text as the parser does, by a session of it.
fn parse_next(
    alloc: Global,
    selecting: &SelectingParser,
    session: &mut Session<'_>,
    text: &[u8],
    options: &ParseOptions<'_>,
) -> Result<Answer, ParseFault>
    requires { IsSessionOf selecting.now.parser session.old }
    ensures parse { IsParse (rules_shown selecting.now.parser) None (shown_parser_rules selecting.now.parser) text.now
        (start_named options.now) (options.now.memo ≡ 0) options.now.steps result }
    ensures session { IsSessionOf selecting.now.parser session.new }
{
    session.parse(alloc, text, options)
}

// The answer of a parser, with the spans of the expected terminals and the levels of the nodes. `terminals` has the
// spans of all terminals.
fn selected_match(
    alloc: Global,
    terminals: &[FileSpan],
    answer: Answer,
) -> Result<Match, AllocError>
    requires { All (λ terminal. terminal < length terminals.now) answer.outcome.expected.items }
    ensures answer { IfOk result (λ found. found.answer ≡ answer) }
    ensures expected { (rules : List Rule) → terminals.now ≡ map file_span (extents_of_terminals rules)
        → IfOk result (λ found. found.expected.items
        ≡ map file_span (extents_at rules answer.outcome.expected.items)) }
{
    let expected = spans_among(alloc, terminals, &answer.outcome.expected)?;
    let levels = levels_in(alloc, &answer.outcome.result)?;
    Ok(Match {
        answer,
        expected,
        levels,
    })
}

// The spans of the terminals with these numbers, among the spans of all.
fn spans_among(
    alloc: Global,
    terminals: &[FileSpan],
    numbers: &[u32],
) -> Result<Vec<FileSpan>, AllocError>
    requires { All (λ terminal. terminal < length terminals.now) numbers.now }
    ensures { (rules : List Rule) → terminals.now ≡ map file_span (extents_of_terminals rules)
        → IfOk result (λ spans. spans.items ≡ map file_span (extents_at rules numbers.now)) }
{
    let mut spans = Vec::new(alloc);
    'spans: for i in 0..numbers.len() {
        spans.push(terminals[numbers[i] as usize])?;
    }
    Ok(spans)
}
