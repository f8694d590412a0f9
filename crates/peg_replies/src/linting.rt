//! The line of the warnings about a grammar file.
ghost use Rattle.std.specs.Prelude.{◌≡◌, ℕ, ◌<◌, ◌≤◌, List, Option, Some, length, option_map, IfOk};
ghost use Rattle.peg_bytes.specs.Place.{max_offset};
ghost use Rattle.peg_grammar.specs.GrammarRules.{rules_in};
ghost use Rattle.peg_json.specs.Lines.{IsLineOf, line_bytes};
ghost use Rattle.peg_json.specs.Lints.{LintsTo, start_number};
ghost use Rattle.peg_json.specs.Statuses.{status_code};
ghost use Rattle.peg_replies.specs.Replies.{IsPrinted};
ghost use Rattle.peg_replies.specs.Task.{LintTask};

use crate::loading::{Loaded, load};
use peg_core::desugar;
use peg_grammar::Grammar;
use peg_json::{Line, lint_line, no_start_line};
use peg_lint::{Selection, file_warnings};
use std::alloc::{AllocError, Global};

/// Returns the line of the warnings about a grammar file, or the one that reports why the file isn't accepted.
pub(crate) fn lint_file(
    alloc: Global,
    file: &[u8],
    start: Option<&str>,
    selection: Selection,
) -> Result<Line, AllocError>
    requires { length file.now ≤ max_offset }
    ensures { (text : List ℕ) → IfOk result (λ line. IsPrinted
        (LintTask (option_map (λ name. name.now) start.entry) selection) file.now text
        (line_bytes line) (status_code line.status)) }
{
    match load(alloc, file)? {
        Loaded::Accepted(parser) => { start_reply(alloc, file, parser.grammar(), start, selection) }
        Loaded::Refused(line) => Ok(line),
    }
}

// The line of the warnings, or the one that reports that no rule has the start's name.
fn start_reply(
    alloc: Global,
    file: &[u8],
    grammar: &Grammar,
    start: Option<&str>,
    selection: Selection,
) -> Result<Line, AllocError>
    ensures { IfOk result (λ line. IsLineOf file.now
        (LintsTo file.now (rules_in grammar.now) (option_map (λ name. name.now) start.entry) selection)
        (line_bytes line) (status_code line.status)) }
{
    match start {
        None => {
            // A grammar has at least one rule, so rule 0 is one.
            let _count = grammar.rules();
            lint_reply(alloc, file, grammar, 0, selection)
        }
        Some(name) => named_reply(alloc, file, grammar, name, selection),
    }
}

// The same for a start with this name.
fn named_reply(
    alloc: Global,
    file: &[u8],
    grammar: &Grammar,
    name: &str,
    selection: Selection,
) -> Result<Line, AllocError>
    ensures { IfOk result (λ line. IsLineOf file.now (LintsTo file.now (rules_in grammar.now) (Some name.now) selection)
        (line_bytes line) (status_code line.status)) }
{
    match grammar.rule_number(name) {
        Some(rule) => lint_reply(alloc, file, grammar, rule, selection),
        None => no_start_line(alloc, name),
    }
}

// The line of the warnings for a start rule.
fn lint_reply(
    alloc: Global,
    file: &[u8],
    grammar: &Grammar,
    rule: u32,
    selection: Selection,
) -> Result<Line, AllocError>
    requires { rule < length (rules_in grammar.now) }
    ensures { (start : Option (List ℕ)) → start_number (rules_in grammar.now) start ≡ Some rule → IfOk result (λ line.
        IsLineOf file.now (LintsTo file.now (rules_in grammar.now) start selection) (line_bytes line)
        (status_code line.status)) }
{
    let core = desugar(alloc, grammar)?;
    let found = file_warnings(alloc, file, grammar, &core, rule, selection)?;
    lint_line(alloc, file, grammar, &found)
}
