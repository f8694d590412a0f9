//! Replies that depend on the grammar file alone.
ghost use Rattle.std.specs.Prelude.{◌≡◌, ℕ, ◌≤◌, List, length, IfOk, string_bytes};
ghost use Rattle.peg_bytes.specs.Place.{max_offset};
ghost use Rattle.peg_grammar.specs.GrammarRules.{rules_in};
ghost use Rattle.peg_parser.specs.Accepts.{IsRead, IsAcceptedGrammar};
ghost use Rattle.peg_json.specs.Statuses.{status_code};
ghost use Rattle.peg_replies.specs.Loaded.{IsLoadedFrom};
ghost use Rattle.peg_replies.specs.Replies.{IsPrinted};
ghost use Rattle.peg_replies.specs.Task.{CheckTask, CodeTask, TableTask};
ghost use Rattle.peg_json.specs.Lines.{line_bytes};

use peg_check::table_of;
use peg_core::desugar;
use peg_grammar::Grammar;
use peg_json::{Line, accepted_line, code_line, refused_line, table_line};
use peg_parser::{Parser, Refusal, grammar_of};
use std::alloc::{AllocError, Global};

/// The result of loading a grammar file that has to be accepted.
#[derive(Drop)]
pub(crate) enum Loaded {
    /// The parser of the file.
    Accepted(Parser),
    /// The line that reports why the file is rejected.
    Refused(Line),
}

/// Returns the parser of a grammar file, or the line that reports why it is rejected.
pub(crate) fn load(alloc: Global, file: &[u8]) -> Result<Loaded, AllocError>
    requires { length file.now ≤ max_offset }
    ensures { IfOk result (IsLoadedFrom file.now) }
{
    match Parser::from_file(alloc, file) {
        Ok(parser) => Ok(Loaded::Accepted(parser)),
        Err(Refusal::Memory) => Err(AllocError),
        Err(refusal) => Ok(Loaded::Refused(refused_line(alloc, file, &refusal)?)),
    }
}

/// Returns the line that reports whether a grammar file is accepted.
pub(crate) fn check_file(alloc: Global, file: &[u8]) -> Result<Line, AllocError>
    requires { length file.now ≤ max_offset }
    ensures { (text : List ℕ) → IfOk result
        (λ line. IsPrinted CheckTask file.now text (line_bytes line) (status_code line.status)) }
{
    match load(alloc, file)? {
        Loaded::Accepted(parser) => accepted_line(alloc, parser.grammar().rules()),
        Loaded::Refused(line) => Ok(line),
    }
}

/// Returns the line of a grammar file's code, or the one that reports why the file isn't accepted.
pub(crate) fn code_file(alloc: Global, file: &[u8]) -> Result<Line, AllocError>
    requires { length file.now ≤ max_offset }
    ensures { (text : List ℕ) → IfOk result
        (λ line. IsPrinted CodeTask file.now text (line_bytes line) (status_code line.status)) }
{
    match load(alloc, file)? {
        Loaded::Accepted(parser) => code_line(alloc, parser.program()),
        Loaded::Refused(line) => Ok(line),
    }
}

/// Returns the line of a grammar file's table of outcomes, or the one that reports why there is none.
pub(crate) fn table_file(alloc: Global, file: &[u8]) -> Result<Line, AllocError>
    requires { length file.now ≤ max_offset }
    ensures { (text : List ℕ) → IfOk result
        (λ line. IsPrinted TableTask file.now text (line_bytes line) (status_code line.status)) }
{
    match grammar_of(alloc, file) {
        Ok(grammar) => table_reply(alloc, grammar),
        Err(Refusal::Memory) => Err(AllocError),
        Err(refusal) => refused_line(alloc, file, &refusal),
    }
}

// The line of a grammar's table of outcomes. Counts are cut to one iteration first, which doesn't change the outcomes.
fn table_reply(alloc: Global, grammar: Grammar) -> Result<Line, AllocError>
    requires { IsAcceptedGrammar (rules_in grammar) }
    ensures { (file text : List ℕ) → IsRead file (rules_in grammar) → IfOk result
        (λ line. IsPrinted TableTask file text (line_bytes line) (status_code line.status)) }
{
    let cut = grammar.with_cut_counts();
    let core = desugar(alloc, &cut)?;
    let table = table_of(alloc, &core)?;
    table_line(alloc, &cut, &core, &table)
}
