//! The terminal numbers, in the diagnostic grammar, of the empty classes of items.
ghost use Rattle.std.specs.Prelude.{◌≡◌, ◌+◌, ◌<◌, ◌^◌, [], ◌∷◌, ◌++◌, map, IfOk, OnOk};
ghost use Rattle.peg_diagnostics.specs.Diagnostic.{loud, loud_all, quiet};
ghost use Rattle.peg_diagnostics.specs.ItemTests.{added_terminals, added_terminals_of_all};
ghost use Rattle.peg_diagnostics.specs.ItemTests.{item_terminals as terminals_of_items};
ghost use Rattle.peg_grammar.specs.GrammarRules.{rules_in};
ghost use Rattle.peg_grammar.specs.Written.{form_of};
ghost use Rattle.peg_semantics.specs.Form.{forms, terminals, terminals_of_all};

use peg_grammar::{Expr, Grammar};
use std::alloc::{AllocError, Global};

/// Returns, by item number, the number of the item's empty class among the terminals of the diagnostic grammar of a
/// grammar. The numbers ascend. The only error is a failed allocation. Linear in the weight of the grammar.
///
/// # Example
///
/// ```
/// let grammar = Grammar::new(alloc, read(alloc, b"S <- 'ab' !'c' .")?)?;
/// assert_eq!(item_terminals(alloc, &grammar)?.as_slice()[1], 3);
/// ```
pub fn item_terminals(alloc: Global, grammar: &Grammar) -> Result<Vec<u32>, AllocError>
    ensures { IfOk result (λ numbers. numbers.items ≡ terminals_of_items (rules_in grammar.now)) }
{
    let mut numbers = Vec::new(alloc);
    let mut next = 0;
    for rule in 0..grammar.rules() {
        next = add_numbers(&mut numbers, next, grammar.body(rule))?;
    }
    Ok(numbers)
}

// Appends the numbers of an expression whose loud form has first terminal `first`. Returns the number of the terminal
// after that form. Recurses as deep as expressions nest.
#[cycle(numbers)]
fn add_numbers(numbers: &mut Vec<u32>, first: u32, expression: &Expr) -> Result<u32, AllocError>
    requires { first + terminals (loud (form_of expression.now)) < 2 ^ 32 }
    ensures numbers { OnOk result (numbers.new.items
        ≡ numbers.old.items ++ added_terminals (form_of expression.now) first) }
    ensures next { IfOk result (λ next. next ≡ first + terminals (loud (form_of expression.now))) }
{
    match expression {
        Expr::Literal { .. } | Expr::Class { .. } | Expr::Any { .. } => {
            add_number(numbers, first + 1)
        }
        Expr::And { part, .. } | Expr::Not { part, .. } => add_predicate(numbers, first, part),
        Expr::Name { .. } => Ok(first),
        Expr::Seq { items, .. } => add_all_numbers(numbers, first, items),
        Expr::Choice {
            first: one,
            rest,
            ..
        } => {
            let next = add_numbers(numbers, first, one)?;
            add_all_numbers(numbers, next, rest)
        }
        Expr::Optional { part, .. }
        | Expr::Star { part, .. }
        | Expr::Plus { part, .. }
        | Expr::Counted { part, .. } => add_numbers(numbers, first, part),
    }
}

#[cycle(numbers)]
fn add_all_numbers(numbers: &mut Vec<u32>, first: u32, items: &[Expr]) -> Result<u32, AllocError>
    requires { first + terminals_of_all (loud_all (forms (map form_of items.now))) < 2 ^ 32 }
    ensures numbers { OnOk result (numbers.new.items
        ≡ numbers.old.items ++ added_terminals_of_all (forms (map form_of items.now)) first) }
    ensures next { IfOk result (λ next. next ≡ first + terminals_of_all (loud_all (forms (map form_of items.now)))) }
{
    let mut next = first;
    for item in items {
        next = add_numbers(numbers, next, item)?;
    }
    Ok(next)
}

// Appends the number of a predicate's empty class, which comes after the terminals of the predicate's part. Returns the
// number after it.
fn add_predicate(numbers: &mut Vec<u32>, first: u32, part: &Expr) -> Result<u32, AllocError>
    requires { first + (terminals (quiet (form_of part.now)) + 1) < 2 ^ 32 }
    ensures numbers { OnOk result (numbers.new.items
        ≡ numbers.old.items ++ (first + terminals (form_of part.now)) ∷ []) }
    ensures next { IfOk result (λ next. next ≡ first + (terminals (quiet (form_of part.now)) + 1)) }
{
    add_number(numbers, first + count_terminals(part))
}

// Appends the number of an item's empty class, and returns the number after it.
fn add_number(numbers: &mut Vec<u32>, number: u32) -> Result<u32, AllocError>
    requires { number + 1 < 2 ^ 32 }
    ensures numbers { OnOk result (numbers.new.items ≡ numbers.old.items ++ number ∷ []) }
    ensures next { IfOk result (λ next. next ≡ number + 1) }
{
    numbers.push(number)?;
    Ok(number + 1)
}

// Counts the terminals in an expression.
#[cycle(count)]
fn count_terminals(expression: &Expr) -> u32
    requires { terminals (form_of expression.now) < 2 ^ 32 }
    ensures { result ≡ terminals (form_of expression.now) }
{
    match expression {
        Expr::Literal { .. } | Expr::Class { .. } | Expr::Any { .. } => 1,
        Expr::Name { .. } => 0,
        Expr::Seq { items, .. } => count_all_terminals(items),
        Expr::Choice { first, rest, .. } => count_terminals(first) + count_all_terminals(rest),
        Expr::Optional { part, .. }
        | Expr::Star { part, .. }
        | Expr::Plus { part, .. }
        | Expr::Counted { part, .. }
        | Expr::And { part, .. }
        | Expr::Not { part, .. } => count_terminals(part),
    }
}

#[cycle(count)]
fn count_all_terminals(items: &[Expr]) -> u32
    requires { terminals_of_all (forms (map form_of items.now)) < 2 ^ 32 }
    ensures { result ≡ terminals_of_all (forms (map form_of items.now)) }
{
    let mut all = 0;
    for item in items {
        all += count_terminals(item);
    }
    all
}
