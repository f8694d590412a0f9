//! Writes the warnings about a grammar file as messages for people.
ghost use Rattle.std.specs.Prelude.{◌≡◌, ◌<◌, ◌≤◌, ℕ, false, IfOk, IfSome, List, Option, Some, length, option_map};
ghost use Rattle.peg_bytes.specs.Place.{max_offset};
ghost use Rattle.peg_explain_files.specs.Explained.{OrOutOfMemory};
ghost use Rattle.peg_explain_files.specs.Printings.{has_write_failed};
ghost use Rattle.peg_grammar.specs.GrammarRules.{rules_in};
ghost use Rattle.peg_json.specs.Lints.{LintsTo, start_number};
ghost use Rattle.peg_json.specs.Reply.{Linted};
ghost use Rattle.peg_semantics.specs.Rules.{names};
ghost use Rattle.peg_lint_files.specs.LintAnswers.{IsLinted, WritesLints, WritesWarnings, verdict_of};
ghost use Rattle.peg_lint_files.specs.LintQuestions.{question_of};

use crate::messages::lint_message;
use crate::query::LintQuery;
use peg_core::desugar;
use peg_explain_files::{
    Content, Ended, ExplainFault, Printing, Verdict, content_of, unread_grammar, write_alone,
    write_no_start, write_refusal,
};
use peg_grammar::Grammar;
use peg_io::{Opener, Sink};
use peg_lint::{Selection, Warning, file_warnings};
use peg_messages::shown_name;
use peg_notation::MAX_FILE_BYTES;
use peg_parser::{Parser, Refusal};
use std::alloc::{AllocError, Global};

/// Reads a grammar file, and writes a message for each of its warnings, in the order of `file_warnings`. A message has
/// the place of the warning, what it says and how to write the part instead, then the line of the place and a caret
/// below the place. If the warning has a cause, a note of the same form follows. A last line names the rules that are
/// spacing, if there are some.
///
/// If the file can't be opened or read, is refused, or has no rule with the name of the start, the answer is that of
/// `explain_files`. The verdict is `Differs` if there are warnings, and `Matches` otherwise.
///
/// All is written at the end. On `Memory` nothing is written. At most 1,048,577 bytes of the grammar file are read.
///
/// # Example
///
/// ```
/// let query = LintQuery { grammar: "ab.peg", start: None, selection: Selection::All };
/// let ended = write_warnings(alloc, &files, &mut output, &query)?;
/// ```
pub fn write_warnings<O: Opener, W: Sink>(
    alloc: Global,
    files: &O,
    output: &mut W,
    query: &LintQuery<'_>,
) -> Result<Ended, ExplainFault>
    requires { W.failed output.old ≡ false }
    ensures linted { IsLinted (question_of query.now) (O.file_at files.now) (W.written output.old)
        (W.written output.new) result }
    ensures failed { W.failed output.new ≡ has_write_failed result }
{
    let printing = Printing::All;
    let file = match content_of(alloc, files, query.grammar, MAX_FILE_BYTES + 1)? {
        Content::Bytes(file) => file,
        Content::Unopened => {
            return unread_grammar(alloc, query.grammar, ": can't be opened\n", printing);
        }
        Content::Unreadable => {
            return unread_grammar(alloc, query.grammar, ": can't be read\n", printing);
        }
    };
    match Parser::from_file(alloc, &file) {
        Ok(parser) => lint_grammar(alloc, output, &file, parser.grammar(), query),
        Err(Refusal::Memory) => Err(ExplainFault::Memory),
        Err(refusal) => write_refusal(alloc, output, query.grammar, &file, &refusal, printing),
    }
}

// Writes the warnings about the grammar of a file, unless no rule has the name of the start.
fn lint_grammar<W: Sink>(
    alloc: Global,
    output: &mut W,
    file: &[u8],
    grammar: &Grammar,
    query: &LintQuery<'_>,
) -> Result<Ended, ExplainFault>
    requires works { W.failed output.old ≡ false }
    requires short { length file.now ≤ max_offset }
    ensures answer { OrOutOfMemory (W.written output.old) (W.written output.new) result
        (WritesLints (question_of query.now) file.now (rules_in grammar.now) (W.written output.old)
        (W.written output.new) result) }
    ensures failed { W.failed output.new ≡ has_write_failed result }
{
    match start_number(grammar, query.start) {
        Some(rule) => {
            let found = warnings_of(alloc, file, grammar, rule, query.selection)?;
            write_found(alloc, output, file, grammar, query.grammar, &found)
        }
        None => {
            let start = query.start.unwrap_or("");
            write_no_start(alloc, output, query.grammar, start, Printing::All)
        }
    }
}

// Returns the number of the start rule, if there is one with its name.
fn start_number(grammar: &Grammar, start: Option<&str>) -> Option<u32>
    ensures number { result
        ≡ start_number (rules_in grammar.now) (option_map (λ name. name.now) start.entry) }
    ensures within { IfSome result (λ number. number < length (rules_in grammar.now)) }
{
    match start {
        None => {
            // A grammar has at least one rule, so rule 0 is one.
            let _count = grammar.rules();
            Some(0)
        }
        Some(name) => grammar.rule_number(name),
    }
}

// Returns the warnings about a grammar whose texts are parsed from a start rule.
fn warnings_of(
    alloc: Global,
    file: &[u8],
    grammar: &Grammar,
    rule: u32,
    selection: Selection,
) -> Result<Vec<Warning>, AllocError>
    requires { rule < length (rules_in grammar.now) }
    ensures { (start : Option (List ℕ)) → start_number (rules_in grammar.now) start ≡ Some rule → IfOk result (λ found.
        LintsTo file.now (rules_in grammar.now) start selection (Linted (names (rules_in grammar.now)) found.items)) }
{
    let core = desugar(alloc, grammar)?;
    let found = file_warnings(alloc, file, grammar, &core, rule, selection)?;
    Ok(found)
}

// Writes the messages for warnings about a grammar file with this name.
fn write_found<W: Sink>(
    alloc: Global,
    output: &mut W,
    file: &[u8],
    grammar: &Grammar,
    name: &str,
    warnings: &[Warning],
) -> Result<Ended, ExplainFault>
    requires works { W.failed output.old ≡ false }
    requires short { length file.now ≤ max_offset }
    ensures writes { WritesWarnings name.now file.now (rules_in grammar.now) warnings.now (W.written output.old)
        (W.written output.new) result }
    ensures failed { W.failed output.new ≡ has_write_failed result }
{
    let called = shown_name(alloc, name.as_bytes())?;
    let message = lint_message(alloc, called.as_bytes(), file, grammar, warnings)?;
    write_alone(alloc, output, &message, verdict_of(warnings), Printing::All)
}

// Returns the verdict for warnings.
fn verdict_of(warnings: &[Warning]) -> Verdict
    ensures { result ≡ verdict_of warnings.now }
{
    if warnings.is_empty() {
        Verdict::Matches
    } else {
        Verdict::Differs
    }
}
