//! Lines that pegtool prints about a grammar.
ghost use Rattle.std.specs.Prelude.{◌≡◌, ◌≢◌, ◌↔◌, ◌<◌, ℕ, IfErr, IfOk, IsErrOf, List, None, Option, Some, length};
ghost use Rattle.peg_handle.specs.PrintedLines.{IsCodeLine, IsLintLine, IsTableLine};
ghost use Rattle.peg_handle.specs.Starts.{start_of_bytes};
ghost use Rattle.peg_json.specs.Lints.{start_number};
ghost use Rattle.peg_parser.specs.Parser.{parser_rules};

use crate::content::{GrammarFile, PrintedLine};
use crate::start::start_rule;
use peg_check::table_of;
use peg_core::desugar;
use peg_json::{code_json, lint_json, table_json};
use peg_lint::{Selection, Warning, file_warnings};
use peg_parser::ParseFault;
use std::alloc::{AllocError, Global};

/// Returns the line of a grammar's code, as `pegtool code` prints it.
pub fn print_code(alloc: Global, grammar: &GrammarFile) -> Result<PrintedLine, AllocError>
    ensures { IfOk result (IsCodeLine grammar.now) }
{
    let json = code_json(alloc, grammar.parser.program())?;
    Ok(PrintedLine { json })
}

/// Returns the line of the outcomes of a grammar's rules, as `pegtool table` prints it.
pub fn print_table(alloc: Global, grammar: &GrammarFile) -> Result<PrintedLine, AllocError>
    ensures { IfOk result (IsTableLine grammar.now) }
{
    let rules = grammar.parser.grammar();
    let core = desugar(alloc, rules)?;
    let table = table_of(alloc, &core)?;
    let json = table_json(alloc, rules, &core, &table)?;
    Ok(PrintedLine { json })
}

/// Returns the line of the warnings about a grammar, as `pegtool lint` prints it. The start is the rule that `start`
/// names, or the first rule if `start` is empty.
pub fn print_warnings(
    alloc: Global,
    grammar: &GrammarFile,
    start: &[u8],
    selection: Selection,
) -> Result<PrintedLine, ParseFault>
    ensures line { IfOk result (IsLintLine grammar.now (start_of_bytes start.now) selection) }
    ensures no_start { IsErrOf result ParseFault.NoSuchStart
        ↔ (start_number (parser_rules grammar.now.parser) (start_of_bytes start.now) ≡ None) }
    ensures faults { IfErr result (λ fault. fault ≢ ParseFault.NoSuchStart → fault ≡ ParseFault.Memory) }
{
    match start_rule(grammar.parser.grammar(), start) {
        Some(rule) => Ok(warnings_from(alloc, grammar, rule, selection)?),
        None => Err(ParseFault::NoSuchStart),
    }
}

// Returns the line of the warnings about a grammar whose texts are parsed from a rule.
fn warnings_from(
    alloc: Global,
    grammar: &GrammarFile,
    rule: u32,
    selection: Selection,
) -> Result<PrintedLine, AllocError>
    requires { rule < length (parser_rules grammar.now.parser) }
    ensures { (start : Option (List ℕ)) → start_number (parser_rules grammar.now.parser) start ≡ Some rule
        → IfOk result (IsLintLine grammar.now start selection) }
{
    let rules = grammar.parser.grammar();
    let file: &[u8] = &grammar.bytes;
    let core = desugar(alloc, rules)?;
    let found = file_warnings(alloc, file, rules, &core, rule, selection)?;
    let warnings: &[Warning] = &found;
    let json = lint_json(alloc, file, rules, warnings)?;
    Ok(PrintedLine { json })
}
