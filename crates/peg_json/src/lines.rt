//! The lines of replies, with their exit statuses.
ghost use Rattle.std.specs.Prelude.{◌≡◌, ◌≢◌, ℕ, ◌≤◌, List, length};
ghost use Rattle.std.specs.Prelude.{map, true, IfOk, IfSome, Some, is_some};
ghost use Rattle.peg_bytes.specs.Place.{max_offset};
ghost use Rattle.serde_json.specs.View.{view};
ghost use Rattle.peg_check.specs.Cans.{can_of};
ghost use Rattle.peg_semantics.specs.Rules.{names};
ghost use Rattle.peg_grammar.specs.GrammarRules.{rules_in};
ghost use Rattle.peg_parser.specs.Cause.{Cause, NoSuchRule, NoSuchStart, StepLimit, TextTooLong};
ghost use Rattle.peg_parser.specs.Faults.{IsTrueRefusal, StartsIn, cause_of};
ghost use Rattle.peg_parser.specs.Fits.{Fits};
ghost use Rattle.peg_parser.specs.Parser.{parser_rules};
ghost use Rattle.peg_json.specs.CauseText.{cause_status};
ghost use Rattle.peg_json.specs.FaultCauses.{FaultNames, fault_cause};
ghost use Rattle.peg_json.specs.Lines.{IsLineOf, IsReply, line_bytes};
ghost use Rattle.peg_listings.specs.LintText.{status_of_warnings};
ghost use Rattle.peg_json.specs.Parses.{PrintsOutcome};
ghost use Rattle.peg_json.specs.Reply.{Accepted, Coded, Linted, Refused, Tabled, accepted_data};
ghost use Rattle.peg_json.specs.Statuses.{status_code};
ghost use Rattle.peg_check.specs.Exact.{cans_of};

use crate::answer_text::{answer_status, answer_text};
use crate::fault::Fault;
use crate::line::Line;
use crate::refusal_text::refusal_json;
use crate::row_lines::rows_line;
use crate::status::Status;
use crate::tree_form::TreeForm;
use peg_check::Table;
use peg_code::Program;
use peg_core::Core;
use peg_grammar::Grammar;
use peg_lint::Warning;
use peg_listings::{code_json, lint_json, table_json};
use peg_parser::{Answer, Parser, Refusal};
use peg_tree::JsonFault;
use serde_json::{Value, json};
use std::alloc::{AllocError, Global};

/// Returns the line of a rejected grammar file. The refusal must not be `Memory`.
pub fn refused_line(alloc: Global, file: &[u8], refusal: &Refusal) -> Result<Line, AllocError>
    requires short { length file.now ≤ max_offset }
    requires true_refusal { IsTrueRefusal (length file.now) refusal.now }
    requires has_cause { refusal.now ≢ Refusal.Memory }
    ensures { IfOk result (λ line. (cause : Cause) × (cause_of refusal.now ≡ Some cause)
        × IsReply file.now (Refused cause) (line_bytes line) (status_code line.status)) }
{
    let names = refusal.names(alloc)?;
    fault_line(alloc, &Fault::Refused(refusal), file, &names)
}

/// Returns the line of a fault, where the rules have these names.
pub(crate) fn fault_line(
    alloc: Global,
    fault: &Fault<'_>,
    file: &[u8],
    names: &[&str],
) -> Result<Line, AllocError>
    requires has_cause { is_some (fault_cause (map (λ name. name.now) names.now) fault.now) ≡ true }
    requires short { length file.now ≤ max_offset }
    requires places { IfSome (fault_cause (map (λ name. name.now) names.now) fault.now) (StartsIn (length file.now)) }
    requires rules { FaultNames (length names.now) fault.now }
    ensures { IfOk result (λ line. IfSome (fault_cause (map (λ name. name.now) names.now) fault.now) (λ cause.
        IsReply file.now (Refused cause) (line_bytes line) (status_code line.status))) }
{
    Ok(Line::new(refusal_json(alloc, fault, file, names)?, fault.status()))
}

/// Returns the line of a table of outcomes. The table has the entries of the grammar's core forms.
pub fn table_line(
    alloc: Global,
    grammar: &Grammar,
    core: &Core,
    table: &Table,
) -> Result<Line, AllocError>
    requires rules { length core.now.bodies ≡ length (rules_in grammar.now) }
    requires entries { length table.now ≡ length core.now.forms }
    ensures { (file : List ℕ) → IfOk result (λ line.
        IsReply file (Tabled (names (rules_in grammar.now)) (cans_of core.now.bodies table.now))
        (line_bytes line) (status_code line.status)) }
{
    Ok(Line::new(table_json(alloc, grammar, core, table)?, Status::Done))
}

/// Returns the line of a program's code.
pub fn code_line(alloc: Global, program: &Program) -> Result<Line, AllocError>
    ensures { (file : List ℕ) → IfOk result (λ line.
        IsReply file (Coded program.now.code program.now.entries) (line_bytes line) (status_code line.status)) }
{
    Ok(Line::new(code_json(alloc, program)?, Status::Done))
}

/// Returns the line of the warnings about a grammar. `file` is the grammar file.
pub fn lint_line(
    alloc: Global,
    file: &[u8],
    grammar: &Grammar,
    warnings: &[Warning],
) -> Result<Line, AllocError>
    ensures { IfOk result (λ line. IsReply file.now (Linted (names (rules_in grammar.now)) warnings.now)
        (line_bytes line) (status_code line.status)) }
{
    let text = lint_json(alloc, file, grammar, warnings)?;
    Ok(Line::new(text, lint_status(warnings)))
}

// The exit status for warnings.
fn lint_status(warnings: &[Warning]) -> Status
    ensures { status_code result ≡ status_of_warnings warnings.now }
{
    if warnings.is_empty() {
        Status::Done
    } else {
        Status::Failed
    }
}

/// Returns the line of an accepted grammar with this many rules.
pub fn accepted_line(alloc: Global, rules: u32) -> Result<Line, AllocError>
    ensures { (file : List ℕ) → IfOk result (λ line.
        IsReply file (Accepted rules) (line_bytes line) (status_code line.status)) }
{
    let value = accepted_value(alloc, rules)?;
    Ok(Line::new(value.to_string(alloc)?, Status::Done))
}

// The JSON of that line.
fn accepted_value(alloc: Global, rules: u32) -> Result<Value, AllocError>
    ensures { IfOk result (λ value. view value ≡ accepted_data rules) }
{
    json!(in alloc; {"result": "accepted", "rules": rules})
}

/// Returns the line of an answer with its tree in this form, or that the tree is too deep for the form. The text has
/// `text_len` bytes.
pub fn answer_line(
    alloc: Global,
    parser: &Parser,
    answer: Answer,
    text_len: u32,
    all: bool,
    form: TreeForm,
) -> Result<Line, AllocError>
    requires { Fits (parser_rules parser.now) answer.outcome }
    ensures { (file : List ℕ) → IfOk result (λ line. IsLineOf file
        (PrintsOutcome (parser_rules parser.now) answer.outcome text_len all form)
        (line_bytes line) (status_code line.status)) }
{
    match form {
        TreeForm::Rows => rows_line(alloc, parser, answer, text_len, all),
        TreeForm::Nested | TreeForm::NoTree => {
            text_line(alloc, parser, &answer, text_len, all, form)
        }
    }
}

// The line of an answer that is made as one text, or that the tree is too deep for the form.
fn text_line(
    alloc: Global,
    parser: &Parser,
    answer: &Answer,
    text_len: u32,
    all: bool,
    form: TreeForm,
) -> Result<Line, AllocError>
    requires { Fits (parser_rules parser.now) answer.now.outcome }
    ensures { (file : List ℕ) → IfOk result (λ line. IsLineOf file
        (PrintsOutcome (parser_rules parser.now) answer.now.outcome text_len all form)
        (line_bytes line) (status_code line.status)) }
{
    let status = answer_status(answer, text_len, all);
    match answer_text(alloc, parser, answer, text_len, all, form) {
        Ok(text) => Ok(Line::new(text, status)),
        Err(JsonFault::TooDeep) => fault_line(alloc, &Fault::TooDeep, &[], &[]),
        Err(JsonFault::Memory) => Err(AllocError),
    }
}

/// Returns the line that reports that no rule has the start's name.
pub fn no_start_line(alloc: Global, name: &str) -> Result<Line, AllocError>
    ensures { (file : List ℕ) → IfOk result (λ line.
        IsReply file (Refused (NoSuchStart name.now)) (line_bytes line) (status_code line.status)) }
{
    fault_line(alloc, &Fault::NoSuchStart(name), &[], &[])
}

/// Returns the line that reports that no rule has a name that is in a list of rules.
pub fn no_rule_line(alloc: Global, name: &str) -> Result<Line, AllocError>
    ensures { (file : List ℕ) → IfOk result (λ line.
        IsReply file (Refused (NoSuchRule name.now)) (line_bytes line) (status_code line.status)) }
{
    fault_line(alloc, &Fault::NoSuchRule(name), &[], &[])
}

/// Returns the line that reports that a text is too long.
pub fn long_text_line(alloc: Global) -> Result<Line, AllocError>
    ensures { (file : List ℕ) → IfOk result (λ line.
        IsReply file (Refused TextTooLong) (line_bytes line) (status_code line.status)) }
{
    fault_line(alloc, &Fault::TextTooLong, &[], &[])
}

/// Returns the line that reports that a parse exceeds its step limit.
pub fn step_limit_line(alloc: Global) -> Result<Line, AllocError>
    ensures { (file : List ℕ) → IfOk result (λ line.
        IsReply file (Refused StepLimit) (line_bytes line) (status_code line.status)) }
{
    fault_line(alloc, &Fault::StepLimit, &[], &[])
}

impl<'a> Fault<'a> {
    // The exit status of a fault.
    fn status(&self) -> Status
        ensures { (names : List (List ℕ)) →
            IfSome (fault_cause names self.now) (λ cause. status_code result ≡ cause_status cause) }
    {
        match self {
            Fault::Refused(_) => Status::Refused,
            Fault::NoSuchStart(_) | Fault::NoSuchRule(_) => Status::Usage,
            Fault::StepLimit | Fault::TooDeep | Fault::TextTooLong => Status::Limit,
        }
    }
}
