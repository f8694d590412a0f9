//! Checks of the names and counts of definitions.
ghost use Rattle.std.specs.Prelude.{◌≡◌, List, [], ◌∷◌, ◌++◌, None, false, bytes_eq, find, length, map, position};
ghost use Rattle.std.specs.Prelude.{string_bytes, ◌<◌, IfErr, IfOk, IfSome, OnOk, option_map};
ghost use Rattle.std.specs.List.{list_any};
ghost use Rattle.peg_semantics.specs.Form.{forms, names_used, names_used_by_all};
ghost use Rattle.peg_semantics.specs.Grammar.{IsGrammar, first_duplicate};
ghost use Rattle.peg_semantics.specs.Grammar.{is_unknown};
ghost use Rattle.peg_grammar.specs.Names.{names_in, reference_of};
ghost use Rattle.peg_grammar.specs.Refusal.{IsRefusedBy};
ghost use Rattle.peg_semantics.specs.Rules.{names as names_of, references};
ghost use Rattle.peg_grammar.specs.Written.{form_of, rules_of};

use crate::counts::first_bad_count;
use crate::name_key::NameKey;
use crate::{Definition, Expr, GrammarFault};
use indexmap::IndexSet;
use peg_bytes::Span;
use std::alloc::{AllocError, Global};

// Returns the names of the definitions, in order, or the fault that makes the definitions not a grammar.
pub(crate) fn checked_names(
    alloc: Global,
    definitions: &[Definition],
) -> Result<IndexSet<String, NameKey>, GrammarFault>
    ensures all { IfOk result (λ set. names_in set ≡ names_of (rules_of definitions.now)) }
    ensures grammar { OnOk result (IsGrammar (rules_of definitions.now)) }
    ensures refused { IfErr result (IsRefusedBy (rules_of definitions.now)) }
{
    if definitions.is_empty() {
        return Err(GrammarFault::NoRule);
    }
    let names = distinct_names(alloc, definitions)?;
    if let Some((name, span)) = first_unknown(&names, definitions) {
        let name = String::from_str(alloc, name)?;
        return Err(GrammarFault::Undefined { name, span });
    }
    if let Some(count) = first_bad_count(definitions) {
        return Err(GrammarFault::BadCount { span: count.span });
    }
    Ok(names)
}

// Returns the names of the definitions, in order, or the first duplicate.
fn distinct_names(
    alloc: Global,
    definitions: &[Definition],
) -> Result<IndexSet<String, NameKey>, GrammarFault>
    ensures all { IfOk result (λ set. names_in set ≡ names_of (rules_of definitions.now)) }
    ensures distinct { OnOk result (first_duplicate (rules_of definitions.now) ≡ None) }
    ensures refused { IfErr result (IsRefusedBy (rules_of definitions.now)) }
{
    let mut names = IndexSet::with_hasher(alloc, NameKey::of(definitions));
    for definition in definitions {
        if has_name(&names, definition.name.as_str()) {
            let name = definition.name.clone()?;
            let span = definition.span;
            return Err(GrammarFault::Duplicate { name, span });
        }
        add_name(&mut names, &definition.name)?;
    }
    Ok(names)
}

#[tactic(auto, using(crate::proofs::NameLists::name_steps))]
fn has_name(names: &IndexSet<String, NameKey>, name: &str) -> bool
    ensures { result ≡ list_any (bytes_eq name.now) (names_in names.now) }
{
    names.contains(name)
}

// Returns the index of a name in the set.
#[tactic(auto, using(crate::proofs::NameLists::name_steps))]
pub(crate) fn name_number(names: &IndexSet<String, NameKey>, name: &str) -> Option<usize>
    ensures value { result ≡ position (bytes_eq name.now) (names_in names.now) }
    ensures within { IfSome result (λ number. number < length (names_in names.now)) }
{
    names.get_index_of(name)
}

// Appends a name that is not in the set.
#[tactic(auto, using(crate::proofs::NameLists::name_steps))]
fn add_name(names: &mut IndexSet<String, NameKey>, name: &String) -> Result<(), AllocError>
    requires { list_any (bytes_eq (string_bytes name.now)) (names_in names.old) ≡ false }
    ensures { OnOk result (names_in names.new ≡ names_in names.old ++ string_bytes name.now ∷ []) }
{
    names.insert(name.clone()?)?;
    Ok(())
}

// Finds the first reference, in written order, to a name that is not in the set.
fn first_unknown<'a>(
    names: &IndexSet<String, NameKey>,
    definitions: &'a [Definition],
) -> Option<(&'a str, Span)>
    ensures { option_map reference_of result
        ≡ find (is_unknown (names_in names.now)) (references (rules_of definitions.now)) }
{
    for definition in definitions {
        if let Some(unknown) = unknown_in(names, &definition.body) {
            return Some(unknown);
        }
    }
    None
}

#[cycle(unknown)]
fn unknown_in<'a>(
    names: &IndexSet<String, NameKey>,
    expression: &'a Expr,
) -> Option<(&'a str, Span)>
    ensures { option_map reference_of result
        ≡ find (is_unknown (names_in names.now)) (names_used (form_of expression.now)) }
{
    match expression {
        Expr::Literal { .. } | Expr::Class { .. } | Expr::Any { .. } => None,
        Expr::Name { name, span } => {
            if has_name(names, name.as_str()) {
                return None;
            }
            Some((name.as_str(), *span))
        }
        Expr::Seq { items, .. } => unknown_among(names, items),
        Expr::Choice { first, rest, .. } => match unknown_in(names, first) {
            Some(unknown) => Some(unknown),
            None => unknown_among(names, rest),
        },
        Expr::Optional { part, .. }
        | Expr::Star { part, .. }
        | Expr::Plus { part, .. }
        | Expr::Counted { part, .. }
        | Expr::And { part, .. }
        | Expr::Not { part, .. } => unknown_in(names, part),
    }
}

#[cycle(unknown)]
fn unknown_among<'a>(
    names: &IndexSet<String, NameKey>,
    items: &'a [Expr],
) -> Option<(&'a str, Span)>
    ensures { option_map reference_of result
        ≡ find (is_unknown (names_in names.now)) (names_used_by_all (forms (map form_of items.now))) }
{
    for item in items {
        if let Some(unknown) = unknown_in(names, item) {
            return Some(unknown);
        }
    }
    None
}
