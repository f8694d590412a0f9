//! The rules of the items of a grammar.
ghost use Rattle.std.specs.Prelude.{◌≡◌, ◌++◌, replicate, IfOk, OnOk};
ghost use Rattle.std.specs.Prelude.{map};
ghost use Rattle.peg_diagnostics.specs.Items.{items, items_of_all, rules_of_items};
ghost use Rattle.peg_grammar.specs.GrammarRules.{rules_in};
ghost use Rattle.peg_grammar.specs.Written.{form_of};
ghost use Rattle.peg_semantics.specs.Form.{forms};

use peg_grammar::{Expr, Grammar};
use std::alloc::{AllocError, Global};

/// Returns the number of the rule that each item of a grammar is in, by item number. The only error is a failed
/// allocation. Linear in the weight of the grammar.
///
/// # Example
///
/// ```
/// let grammar = Grammar::new(alloc, read(alloc, b"S <- 'a' T\nT <- !'b' .")?)?;
/// assert_eq!(item_rules(alloc, &grammar)?.as_slice(), [0, 1, 1].as_slice());
/// ```
pub fn item_rules(alloc: Global, grammar: &Grammar) -> Result<Vec<u32>, AllocError>
    ensures { IfOk result (λ rules. rules.items ≡ rules_of_items (rules_in grammar.now)) }
{
    let mut rules = Vec::new(alloc);
    for rule in 0..grammar.rules() {
        add_rule(&mut rules, rule, grammar.body(rule))?;
    }
    Ok(rules)
}

// Appends a rule for each item of an expression. Recurses as deep as expressions nest.
#[cycle(rules)]
fn add_rule(rules: &mut Vec<u32>, rule: u32, expression: &Expr) -> Result<(), AllocError>
    ensures { OnOk result (rules.new.items ≡ rules.old.items ++ replicate (items (form_of expression.now)) rule) }
{
    match expression {
        Expr::Literal { .. }
        | Expr::Class { .. }
        | Expr::Any { .. }
        | Expr::And { .. }
        | Expr::Not { .. } => Ok(rules.push(rule)?),
        Expr::Name { .. } => Ok(()),
        Expr::Seq { items, .. } => add_rule_of_all(rules, rule, items),
        Expr::Choice { first, rest, .. } => {
            add_rule(rules, rule, first)?;
            add_rule_of_all(rules, rule, rest)
        }
        Expr::Optional { part, .. }
        | Expr::Star { part, .. }
        | Expr::Plus { part, .. }
        | Expr::Counted { part, .. } => add_rule(rules, rule, part),
    }
}

#[cycle(rules)]
fn add_rule_of_all(rules: &mut Vec<u32>, rule: u32, items: &[Expr]) -> Result<(), AllocError>
    ensures { OnOk result (rules.new.items
        ≡ rules.old.items ++ replicate (items_of_all (forms (map form_of items.now))) rule) }
{
    for item in items {
        add_rule(rules, rule, item)?;
    }
    Ok(())
}
