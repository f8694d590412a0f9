//! Desugaring (Ford 2004, section 3.2). `e?` is `e / ''`, `e+` is `e e*`, and `&e` is `!(!e)`. A count is unfolded, a
//! literal is the sequence of its bytes, and a class or `.` is one test of a byte.
ghost use Rattle.std.specs.Prelude.{◌≡◌, ◌↔◌, ℕ, List, All, Contains, filter, ◌+◌, ◌*◌, ◌≤◌, ◌<◌, true, [], ◌∷◌};
ghost use Rattle.std.specs.Prelude.{length, map, IfOk};
ghost use Rattle.peg_bytes.specs.Extent.{Extent};
ghost use Rattle.peg_core.specs.CoreForm.{Rule, core_bodies, core_form, number_of};
ghost use Rattle.peg_core.specs.CoreLoops.{CoreLeftCalls, IsCoreEmptyLoop, IsCoreLeftCycle};
ghost use Rattle.peg_core.specs.CoreOutcomes.{IsCoreWellFormed};
ghost use Rattle.peg_core.specs.CoreParts.{all_core_parts, are_defined, are_in_range};
ghost use Rattle.peg_core.specs.Appending.{Appends, AppendsForm, AppendsForms};
ghost use Rattle.peg_core.specs.Layout.{bodies_of, max_forms, max_forms_each};
ghost use Rattle.peg_core.specs.Subexpressions.{numbered_subexpressions, all_core_stars, is_star};
ghost use Rattle.peg_semantics.specs.Form.{Seq, counts_written, counts_written_by_all, form_weight, forms};
ghost use Rattle.peg_semantics.specs.Form.{forms_weight, names_used, names_used_by_all};
ghost use Rattle.peg_semantics.specs.Grammar.{max_parts};
ghost use Rattle.peg_grammar.specs.GrammarRules.{rules_in};
ghost use Rattle.peg_semantics.specs.Loops.{LeftCalls, IsEmptyLoop, IsLeftCycle};
ghost use Rattle.peg_semantics.specs.Rules.{is_defined, weight_of};
ghost use Rattle.peg_semantics.specs.Terminals.{extents_of_terminals};
ghost use Rattle.peg_semantics.specs.WellFormed.{IsWellFormedGrammar};
ghost use Rattle.peg_grammar.specs.Written.{form_of};

use crate::Core;
use crate::builder::CoreBuilder;
use crate::operators::{
    add_and, add_any, add_call, add_class, add_count, add_not, add_optional, add_plus, add_star,
};
use crate::sequences::{add_choices, add_literal, add_sequence};
use peg_grammar::{Expr, Grammar};
use std::alloc::{AllocError, Global};

/// Returns the core forms of a grammar (Ford 2004, section 3.2). They are in written order, rule by rule, and the forms
/// of an expression's parts come before its own. The part of a plus or a count is added once, and each iteration names
/// it. If the part is built of empty expressions alone, as in `''{255}`, the iterations after the first that must match
/// are left out: they match the empty string and have no code.
///
/// There are at most two forms for each part of the grammar's weight and each iteration of its counts. Takes time and
/// memory linear in this number, apart from hashing. The recursion is as deep as expressions nest. The only error is a
/// failed allocation.
pub fn desugar(alloc: Global, grammar: &Grammar) -> Result<Core, AllocError>
    ensures forms { IfOk result (λ core. core.forms ≡ all_core_parts (rules_in grammar.now)) }
    ensures bodies { IfOk result (λ core. bodies_of core ≡ core_bodies (rules_in grammar.now)) }
    ensures count { IfOk result (λ core. length core.bodies ≡ length (rules_in grammar.now)) }
    ensures spans { IfOk result (λ core. core.spans ≡ extents_of_terminals (rules_in grammar.now)) }
    ensures few { IfOk result (λ core. length core.forms ≤ max_forms_each * weight_of (rules_in grammar.now)) }

    // The core forms have the properties of the written expressions.
    ensures subexpressions { IfOk result (λ core.
        All (λ e. Contains core.forms (core_form (rules_in grammar.now) e.terminal e.form))
        (numbered_subexpressions (rules_in grammar.now))) }
    ensures stars { IfOk result (λ core. filter is_star core.forms ≡ all_core_stars (rules_in grammar.now)) }
    ensures well_formed { IfOk result (λ core. IsWellFormedGrammar (rules_in grammar.now)
        ↔ All (IsCoreWellFormed (core_bodies (rules_in grammar.now))) core.forms) }
    ensures meets { IfOk result (λ core. (first second : ℕ) → second < length core.bodies
        → (LeftCalls (rules_in grammar.now) first second
        ↔ CoreLeftCalls (bodies_of core) first second)) }
    ensures left_cycles { IfOk result (λ core. (path : List ℕ) → (IsLeftCycle (rules_in grammar.now) path
        ↔ IsCoreLeftCycle (bodies_of core) path)) }
    ensures empty_loops { IfOk result (λ core. (rule : ℕ) (span : Extent)
        → (IsEmptyLoop (rules_in grammar.now) rule span
        ↔ IsCoreEmptyLoop (bodies_of core) rule span)) }
{
    let mut builder = CoreBuilder::new(alloc, grammar.rules());
    let mut bodies = Vec::new(alloc);
    for rule in 0..grammar.rules() {
        let body = add(alloc, &mut builder, grammar, grammar.body(rule))?;
        bodies.push(body)?;
    }
    Ok(Core::new(builder, bodies))
}

// Adds the core forms of an expression, and returns the number of its own. Recurses as deep as expressions nest.
#[cycle(sugar)]
fn add(
    alloc: Global,
    builder: &mut CoreBuilder,
    grammar: &Grammar,
    expr: &Expr,
) -> Result<u32, AllocError>
    requires room { length builder.old.forms + max_forms_each * form_weight (form_of expr.now) ≤ max_forms }
    requires few { length builder.old.spans + form_weight (form_of expr.now) ≤ max_parts }
    requires rules { builder.old.rules ≡ length (rules_in grammar.now) }
    requires defined { are_defined (rules_in grammar.now) (names_used (form_of expr.now)) ≡ true }
    requires ranged { are_in_range (counts_written (form_of expr.now)) ≡ true }
    ensures { IfOk result (λ number. AppendsForm (rules_in grammar.now)
        (form_of expr.now) builder.old number builder.new) }
{
    match expr {
        Expr::Literal { bytes, span } => add_literal(alloc, builder, bytes, *span),
        Expr::Class { set, span } => add_class(builder, *set, *span),
        Expr::Any { span } => add_any(builder, *span),
        Expr::Name { name, .. } => add_name(builder, grammar, name.as_str()),
        Expr::Seq { items, .. } => add_items(alloc, builder, grammar, items),
        Expr::Choice { first, rest, .. } => {
            let first = add(alloc, builder, grammar, first)?;
            let others = add_all(alloc, builder, grammar, rest)?;
            add_choices(builder, first, &others)
        }
        Expr::Optional { part, .. } => add_optional(add(alloc, builder, grammar, part)?, builder),
        Expr::Star { part, span } => add_star(add(alloc, builder, grammar, part)?, builder, *span),
        Expr::Plus { part, span } => add_plus(add(alloc, builder, grammar, part)?, builder, *span),
        Expr::Counted { part, min, max, .. } => {
            add_count(add(alloc, builder, grammar, part)?, builder, *min, *max)
        }
        Expr::And { part, .. } => add_and(add(alloc, builder, grammar, part)?, builder),
        Expr::Not { part, .. } => add_not(add(alloc, builder, grammar, part)?, builder),
    }
}

// Adds the core forms of a sequence of items, and returns the number of its own.
#[cycle(sugar)]
#[inline(never)]
fn add_items(
    alloc: Global,
    builder: &mut CoreBuilder,
    grammar: &Grammar,
    items: &[Expr],
) -> Result<u32, AllocError>
    requires room { length builder.old.forms + max_forms_each * (1 + forms_weight (forms (map form_of items.now)))
        ≤ max_forms }
    requires few { length builder.old.spans + forms_weight (forms (map form_of items.now)) ≤ max_parts }
    requires rules { builder.old.rules ≡ length (rules_in grammar.now) }
    requires defined { are_defined (rules_in grammar.now) (names_used_by_all (forms (map form_of items.now))) ≡ true }
    requires ranged { are_in_range (counts_written_by_all (forms (map form_of items.now))) ≡ true }
    ensures { (span : Extent) → IfOk result (λ number. AppendsForm (rules_in grammar.now)
        (Seq (forms (map form_of items.now)) span) builder.old number builder.new) }
{
    let numbers = add_all(alloc, builder, grammar, items)?;
    add_sequence(builder, &numbers)
}

// Adds the core forms of expressions in order, and returns the numbers of their own.
#[cycle(sugar)]
#[inline(never)]
fn add_all(
    alloc: Global,
    builder: &mut CoreBuilder,
    grammar: &Grammar,
    items: &[Expr],
) -> Result<Vec<u32>, AllocError>
    requires room { length builder.old.forms + max_forms_each * forms_weight (forms (map form_of items.now))
        ≤ max_forms }
    requires few { length builder.old.spans + forms_weight (forms (map form_of items.now)) ≤ max_parts }
    requires rules { builder.old.rules ≡ length (rules_in grammar.now) }
    requires defined { are_defined (rules_in grammar.now) (names_used_by_all (forms (map form_of items.now))) ≡ true }
    requires ranged { are_in_range (counts_written_by_all (forms (map form_of items.now))) ≡ true }
    ensures { IfOk result (λ numbers.
        AppendsForms (rules_in grammar.now) (forms (map form_of items.now)) builder.old numbers.items builder.new) }
{
    let mut numbers = Vec::new(alloc);
    for item in items {
        let number = add(alloc, builder, grammar, item)?;
        numbers.push(number)?;
    }
    Ok(numbers)
}

// Adds the call of the rule that a name denotes.
#[inline(never)]
fn add_name(builder: &mut CoreBuilder, grammar: &Grammar, name: &str) -> Result<u32, AllocError>
    requires room { length builder.old.forms + 1 ≤ max_forms }
    requires rules { builder.old.rules ≡ length (rules_in grammar.now) }
    requires defined { is_defined (rules_in grammar.now) name.now ≡ true }
    ensures { IfOk result (λ number. Appends builder.old (Rule (number_of (rules_in grammar.now) name.now) ∷ []) []
        (Rule (number_of (rules_in grammar.now) name.now)) number builder.new) }
{
    match grammar.rule_number(name) {
        Some(rule) => add_call(builder, rule),
        None => unreachable!(),
    }
}
