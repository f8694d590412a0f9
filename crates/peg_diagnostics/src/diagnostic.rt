//! The diagnostic grammar of a grammar.
ghost use Rattle.std.specs.Prelude.{◌≡◌, ◌<◌, ◌++◌, length, map, slice_get, IfErr, IfOk, OnOk, Some};
ghost use Rattle.peg_diagnostics.specs.Diagnostic.{HaveNoMark, diagnostic_rules, loud_rule, quiet_rule};
ghost use Rattle.peg_diagnostics.specs.Refusal.{IsMemoryOrTooMany};
ghost use Rattle.peg_grammar.specs.GrammarRules.{rules_in};
ghost use Rattle.peg_grammar.specs.Refusal.{IsRefusedBy};
ghost use Rattle.peg_grammar.specs.Written.{rule_of, rules_of};
ghost use Rattle.peg_semantics.specs.Rules.{Rule};

use crate::loud_copies::{loud_expression, span_of};
use crate::quiet_copies::{name_of_copy, quiet_expression};
use peg_grammar::{Definition, Grammar, GrammarFault};
use std::alloc::{AllocError, Global};

/// Returns the diagnostic grammar of a grammar. Its first rules are those of the grammar, with an empty class added to
/// each terminal and each predicate outside predicates. Then a quiet copy of each rule follows, which predicates call.
/// Linear in the weight, except for hashing.
///
/// Returns `TooManyParts` if the weight of the result is over `MAX_PARTS`, and `Memory` if an allocation fails. If a
/// rule has a name with a `!`, it can also return `Duplicate`.
///
/// # Example
///
/// ```
/// let grammar = Grammar::new(alloc, read(alloc, b"S <- !T 'a'    T <- 'b'")?)?;
/// let shown = diagnostic_grammar(alloc, &grammar)?;
/// assert_eq!((shown.rules(), shown.rule_name(3)), (4, "T!"));
/// ```
pub fn diagnostic_grammar(alloc: Global, grammar: &Grammar) -> Result<Grammar, GrammarFault>
    ensures rules { IfOk result (λ g. rules_in g ≡ diagnostic_rules (rules_in grammar.now)) }
    ensures refused { IfErr result (IsRefusedBy (diagnostic_rules (rules_in grammar.now))) }
    ensures plain { HaveNoMark (rules_in grammar.now) → IfErr result IsMemoryOrTooMany }
{
    let mut definitions = Vec::new(alloc);
    add_loud_rules(alloc, grammar, &mut definitions)?;
    add_quiet_rules(alloc, grammar, &mut definitions)?;
    Grammar::new(alloc, definitions)
}

// Appends the rules made loud.
fn add_loud_rules(
    alloc: Global,
    grammar: &Grammar,
    definitions: &mut Vec<Definition>,
) -> Result<(), AllocError>
    ensures { OnOk result (rules_of definitions.new.items
        ≡ rules_of definitions.old.items ++ map loud_rule (rules_in grammar.now)) }
{
    for rule in 0..grammar.rules() {
        definitions.push(loud_definition(alloc, grammar, rule)?)?;
    }
    Ok(())
}

// Appends the quiet copies of the rules.
fn add_quiet_rules(
    alloc: Global,
    grammar: &Grammar,
    definitions: &mut Vec<Definition>,
) -> Result<(), AllocError>
    ensures { OnOk result (rules_of definitions.new.items
        ≡ rules_of definitions.old.items ++ map quiet_rule (rules_in grammar.now)) }
{
    for rule in 0..grammar.rules() {
        definitions.push(quiet_definition(alloc, grammar, rule)?)?;
    }
    Ok(())
}

// Returns a rule made loud.
fn loud_definition(alloc: Global, grammar: &Grammar, rule: u32) -> Result<Definition, AllocError>
    requires { rule < length (rules_in grammar.now) }
    ensures { IfOk result (λ definition. (r : Rule) → slice_get (rules_in grammar.now) rule ≡ Some r
        → rule_of definition ≡ loud_rule r) }
{
    let body = grammar.body(rule);
    Ok(Definition {
        name: String::from_str(alloc, grammar.rule_name(rule))?,
        span: span_of(body),
        body: Box::into_inner(loud_expression(alloc, body)?),
    })
}

// Returns the quiet copy of a rule.
fn quiet_definition(alloc: Global, grammar: &Grammar, rule: u32) -> Result<Definition, AllocError>
    requires { rule < length (rules_in grammar.now) }
    ensures { IfOk result (λ definition. (r : Rule) → slice_get (rules_in grammar.now) rule ≡ Some r
        → rule_of definition ≡ quiet_rule r) }
{
    let body = grammar.body(rule);
    Ok(Definition {
        name: name_of_copy(alloc, grammar.rule_name(rule))?,
        span: span_of(body),
        body: Box::into_inner(quiet_expression(alloc, body)?),
    })
}
