//! The kinds of the items of a grammar.
ghost use Rattle.std.specs.Prelude.{◌≡◌, ◌++◌, map, IfOk, OnOk};
ghost use Rattle.peg_diagnostics.specs.ItemKinds.{kind_of, kinds_of_items};
ghost use Rattle.peg_diagnostics.specs.Items.{item_forms, item_forms_of_all};
ghost use Rattle.peg_grammar.specs.GrammarRules.{rules_in};
ghost use Rattle.peg_grammar.specs.Written.{form_of};
ghost use Rattle.peg_semantics.specs.Form.{forms};

use peg_grammar::{Expr, Grammar};
use std::alloc::{AllocError, Global};

/// What an item is.
#[derive(Clone, Copy, Debug, PartialEq, Eq)]
pub enum ItemKind {
    /// A literal.
    Literal,
    /// A class or a dot, which tests one byte.
    Byte,
    /// A predicate.
    Predicate,
}

/// Returns what each item of a grammar is, by item number. The only error is a failed allocation. Linear in the weight
/// of the grammar.
///
/// # Example
///
/// ```
/// let grammar = Grammar::new(alloc, read(alloc, b"S <- 'ab' !'c' .")?)?;
/// assert_eq!(item_kinds(alloc, &grammar)?.as_slice()[2], ItemKind::Byte);
/// ```
pub fn item_kinds(alloc: Global, grammar: &Grammar) -> Result<Vec<ItemKind>, AllocError>
    ensures { IfOk result (λ kinds. kinds.items ≡ kinds_of_items (rules_in grammar.now)) }
{
    let mut kinds = Vec::new(alloc);
    for rule in 0..grammar.rules() {
        add_kinds(&mut kinds, grammar.body(rule))?;
    }
    Ok(kinds)
}

// Appends the kinds of the items of an expression. Recurses as deep as expressions nest.
#[cycle(kinds)]
fn add_kinds(kinds: &mut Vec<ItemKind>, expression: &Expr) -> Result<(), AllocError>
    ensures { OnOk result (kinds.new.items ≡ kinds.old.items ++ map kind_of (item_forms (form_of expression.now))) }
{
    match expression {
        Expr::Literal { .. } => Ok(kinds.push(ItemKind::Literal)?),
        Expr::Class { .. } | Expr::Any { .. } => Ok(kinds.push(ItemKind::Byte)?),
        Expr::And { .. } | Expr::Not { .. } => Ok(kinds.push(ItemKind::Predicate)?),
        Expr::Name { .. } => Ok(()),
        Expr::Seq { items, .. } => add_all_kinds(kinds, items),
        Expr::Choice { first, rest, .. } => {
            add_kinds(kinds, first)?;
            add_all_kinds(kinds, rest)
        }
        Expr::Optional { part, .. }
        | Expr::Star { part, .. }
        | Expr::Plus { part, .. }
        | Expr::Counted { part, .. } => add_kinds(kinds, part),
    }
}

#[cycle(kinds)]
fn add_all_kinds(kinds: &mut Vec<ItemKind>, items: &[Expr]) -> Result<(), AllocError>
    ensures { OnOk result (kinds.new.items
        ≡ kinds.old.items ++ map kind_of (item_forms_of_all (forms (map form_of items.now)))) }
{
    for item in items {
        add_kinds(kinds, item)?;
    }
    Ok(())
}
