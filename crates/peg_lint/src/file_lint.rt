//! The warnings about a grammar file.
ghost use Rattle.std.specs.Prelude.{◌<◌, All, length, IfOk, IsTrue, OnOk};
ghost use Rattle.peg_core.specs.CoreParts.{AreCoreFormsOf};
ghost use Rattle.peg_grammar.specs.GrammarRules.{rules_in};
ghost use Rattle.peg_lint.specs.FileWarnings.{FindsAll, IsTrueWarningIn, is_selected};
ghost use Rattle.peg_lint.specs.Linting.{AddsIn, FindsInFile, FindsRuleText};
ghost use Rattle.peg_lint.specs.Warnings.{AreDistinct, IsInWrittenOrder};

use crate::dots::add_dot_at_end;
use crate::file_visit::lint_text;
use crate::lint::warnings;
use crate::order::sort_unique;
use crate::selection::select;
use crate::{Selection, Warning};
use peg_core::Core;
use peg_grammar::Grammar;
use std::alloc::{AllocError, Global};

// Adds the warnings about the text of a rule. Takes time linear in it.
fn lint_rule_text(
    file: &[u8],
    grammar: &Grammar,
    rule: u32,
    found: &mut Vec<Warning>,
) -> Result<(), AllocError>
    requires { rule < length (rules_in grammar.now) }
    ensures { OnOk result (AddsIn file.now (rules_in grammar.now) (FindsRuleText file.now (rules_in grammar.now) rule)
        found.old.items found.new.items) }
{
    lint_text(file, rule, grammar.body(rule), found)?;
    add_dot_at_end(file, grammar, rule, found)
}

// Adds the warnings about the texts of all rules. Takes time linear in the file.
fn lint_rule_texts(
    file: &[u8],
    grammar: &Grammar,
    found: &mut Vec<Warning>,
) -> Result<(), AllocError>
    ensures { OnOk result (AddsIn file.now (rules_in grammar.now) (FindsInFile file.now (rules_in grammar.now))
        found.old.items found.new.items) }
{
    'rules: for rule in 0..grammar.rules() {
        lint_rule_text(file, grammar, rule, found)?;
    }
    Ok(())
}

/// Returns the warnings about a grammar and about the file that it was read from, whose texts are parsed from a start
/// rule. The core forms are those of the grammar. Each warning is one of `warnings`, or true of the bytes of the file.
/// With `Selection::Proved` there are no warnings about habits.
///
/// No warning is missing of the kinds that are reported, but for `SameAlternative`, `Shadowed`, `NeverStops`,
/// `NeverFollows` and `TakesNothing`.
///
/// No two warnings are equal. They are sorted by the start of their spans, those with the same start by kind, and those
/// of the same kind by the end of their spans.
///
/// Takes the memory and the time of `warnings`, and time linear in the file. The only error is a failed allocation.
pub fn file_warnings(
    alloc: Global,
    file: &[u8],
    grammar: &Grammar,
    core: &Core,
    start: u32,
    selection: Selection,
) -> Result<Vec<Warning>, AllocError>
    requires core { AreCoreFormsOf (rules_in grammar.now) core.now }
    requires start { start < length (rules_in grammar.now) }
    ensures true_warnings { IfOk result (λ found.
        All (IsTrueWarningIn file.now (rules_in grammar.now) start) found.items) }
    ensures selected { IfOk result (λ found. All (λ warning. IsTrue (is_selected selection warning)) found.items) }
    ensures all { IfOk result (λ found. FindsAll file.now (rules_in grammar.now) start selection found.items) }
    ensures in_order { IfOk result (λ found. IsInWrittenOrder found.items) }
    ensures distinct { IfOk result (λ found. AreDistinct found.items) }
{
    let mut found = warnings(alloc, grammar, core, start)?;
    lint_rule_texts(file, grammar, &mut found)?;
    select(selection, &mut found);
    sort_unique(&mut found)?;
    Ok(found)
}
