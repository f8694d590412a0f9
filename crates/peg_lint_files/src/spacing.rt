//! The note of the rules that are spacing.
ghost use Rattle.std.specs.Prelude.{◌≡◌, ◌++◌, IfOk, OnOk, map};
ghost use Rattle.std.specs.List.{flat_map};
ghost use Rattle.peg_grammar.specs.GrammarRules.{rules_in};
ghost use Rattle.peg_lint_files.specs.WarningMessages.{listed_name, listed_names, note_start};
ghost use Rattle.peg_lint_files.specs.WarningMessages.{spacing_message, spacing_names, spacing_note};
ghost use Rattle.peg_spacing.specs.Spacing.{has_flag};

use peg_grammar::Grammar;
use peg_spacing::spacing_rules;
use std::alloc::{AllocError, Global};

/// Writes a note of the rules that are spacing, if there are some.
pub(crate) fn write_spacing(
    alloc: Global,
    name: &[u8],
    grammar: &Grammar,
    out: &mut Vec<u8>,
) -> Result<(), AllocError>
    ensures { OnOk result (out.new.items ≡ out.old.items ++ spacing_message name.now (rules_in grammar.now)) }
{
    let names = spacing_names(alloc, grammar)?;
    write_note(name, &names, out)
}

// Returns the names of the rules that are spacing, in the order of the grammar file.
fn spacing_names(alloc: Global, grammar: &Grammar) -> Result<Vec<&str>, AllocError>
    ensures { IfOk result (λ list. map (λ name. name.now) list.items ≡ spacing_names (rules_in grammar.now)) }
{
    let flags = spacing_rules(alloc, grammar)?;
    let mut list = Vec::new(alloc);
    'rules: for rule in 0..grammar.rules() {
        if has_flag(&flags, rule as usize) {
            list.push(grammar.rule_name(rule))?;
        }
    }
    Ok(list)
}

// Returns the flag of a rule, which is false if there is none.
fn has_flag(flags: &[bool], rule: usize) -> bool
    ensures { result ≡ has_flag flags.now rule }
{
    match flags.get(rule) {
        Some(flag) => *flag,
        None => false,
    }
}

// Writes a note of rules with these names, if there are some.
fn write_note(name: &[u8], rules: &[&str], out: &mut Vec<u8>) -> Result<(), AllocError>
    ensures { OnOk result (out.new.items
        ≡ out.old.items ++ spacing_note name.now (map (λ rule. rule.now) rules.now)) }
{
    match rules {
        [] => Ok(()),
        [first, rest @ ..] => {
            write_start(name, out)?;
            write_list(first, rest, out)
        }
    }
}

// Writes the start of a note.
fn write_start(name: &[u8], out: &mut Vec<u8>) -> Result<(), AllocError>
    ensures { OnOk result (out.new.items ≡ out.old.items ++ note_start name.now) }
{
    out.extend_from_slice(name)?;
    out.extend_from_slice(b": note: rules that count as spacing: ")
}

// Writes names with commas between them, and a line end.
fn write_list(first: &str, rest: &[&str], out: &mut Vec<u8>) -> Result<(), AllocError>
    ensures { OnOk result
        (out.new.items ≡ out.old.items ++ listed_names first.now (map (λ rule. rule.now) rest.now)) }
{
    out.extend_from_slice(first.as_bytes())?;
    write_others(rest, out)?;
    out.extend_from_slice(b"\n")
}

// Writes names, each after a comma.
fn write_others(rules: &[&str], out: &mut Vec<u8>) -> Result<(), AllocError>
    ensures { OnOk result (out.new.items
        ≡ out.old.items ++ flat_map listed_name (map (λ rule. rule.now) rules.now)) }
{
    let mut rest = rules;
    'rules: while let [rule, others @ ..] = rest {
        write_listed(rule, out)?;
        rest = others;
    }
    Ok(())
}

// Writes a name after a comma.
fn write_listed(rule: &str, out: &mut Vec<u8>) -> Result<(), AllocError>
    ensures { OnOk result (out.new.items ≡ out.old.items ++ listed_name rule.now) }
{
    out.extend_from_slice(b", ")?;
    out.extend_from_slice(rule.as_bytes())
}
