//! The lines that say what texts use of a grammar.
ghost use Rattle.std.specs.Prelude.{◌≡◌, ◌<◌, ℕ, All, List, IfOk, length, map};
ghost use Rattle.serde_json.specs.View.{view};
ghost use Rattle.peg_coverage.specs.Unused.{alternative_use, rule_use};
ghost use Rattle.peg_coverage.specs.declared.coverage.UnusedRule.{UnusedRule};
ghost use Rattle.peg_grammar.specs.GrammarRules.{rules_in};
ghost use Rattle.peg_json.specs.CauseText.{bare_data};
ghost use Rattle.peg_json.specs.CoverageText.{named_use, status_of_coverage, too_large_word};
ghost use Rattle.peg_json.specs.Lines.{IsReply, line_bytes};
ghost use Rattle.peg_json.specs.Reply.{Covered, NoCoverage};
ghost use Rattle.peg_json.specs.Statuses.{status_code};
ghost use Rattle.peg_semantics.specs.Rules.{Rule};

use crate::coverage_text::coverage_json;
use crate::line::Line;
use crate::status::Status;
use peg_coverage::Coverage;
use peg_grammar::Grammar;
use serde_json::{Value, json};
use std::alloc::{AllocError, Global};

/// Returns the line of what texts use of a grammar. `file` is the grammar file. Each unused rule must be one of the
/// grammar.
pub fn coverage_line(
    alloc: Global,
    file: &[u8],
    grammar: &Grammar,
    coverage: &Coverage,
) -> Result<Line, AllocError>
    requires { All (λ (unused : UnusedRule). unused.rule < length (rules_in grammar.now))
        coverage.now.unused_rules.items }
    ensures { IfOk result (λ line. IsReply file.now (Covered coverage.now.texts coverage.now.matched
        coverage.now.stopped.items
        (map (named_use (rules_in grammar.now)) (map rule_use coverage.now.unused_rules.items))
        (map alternative_use coverage.now.unused_alternatives.items)) (line_bytes line) (status_code line.status)) }
{
    let text = coverage_json(alloc, file, grammar, coverage)?;
    Ok(Line::new(text, coverage_status(coverage)))
}

// The exit status for what texts use: a limit if a parse was stopped, and otherwise done if nothing is unused.
fn coverage_status(coverage: &Coverage) -> Status
    ensures { (rules : List Rule) → status_code result ≡ status_of_coverage
        coverage.now.stopped.items (map (named_use rules) (map rule_use coverage.now.unused_rules.items))
        (map alternative_use coverage.now.unused_alternatives.items) }
{
    if !coverage.stopped.is_empty() {
        return Status::Limit;
    }
    if coverage.unused_rules.is_empty() && coverage.unused_alternatives.is_empty() {
        Status::Done
    } else {
        Status::Failed
    }
}

/// Returns the line that reports that the marked grammar of a grammar is over a limit.
pub fn no_coverage_line(alloc: Global) -> Result<Line, AllocError>
    ensures { (file : List ℕ) → IfOk result (λ line.
        IsReply file NoCoverage (line_bytes line) (status_code line.status)) }
{
    let value = no_coverage_value(alloc)?;
    Ok(Line::new(value.to_string(alloc)?, Status::Limit))
}

// The JSON of that line.
fn no_coverage_value(alloc: Global) -> Result<Value, AllocError>
    ensures { IfOk result (λ value. view value ≡ bare_data too_large_word) }
{
    json!(in alloc; {"refusal": "CoverageTooLarge"})
}
