//! Which rules are spacing.
ghost use Rattle.std.specs.Prelude.{◌≡◌, ◌&&◌, ◌||◌, length, map, not, IfOk};
ghost use Rattle.peg_grammar.specs.GrammarRules.{rules_in};
ghost use Rattle.peg_grammar.specs.Written.{form_of};
ghost use Rattle.peg_spacing.specs.Gaps.{gap_of, gaps_in};
ghost use Rattle.peg_spacing.specs.Spacing.{has_flag, is_blanks, is_inside, repeats_gaps, spacing_of};
ghost use Rattle.std.specs.List.{range_with_len};

use crate::called::{Called, has_flag};
use crate::gaps::{Gap, gap_of};
use peg_grammar::{Expr, Grammar};
use std::alloc::{AllocError, Global};

// The most steps from a rule to what it begins with, and from spacing to a rule that it calls.
const STEPS: u32 = 4;

/// Returns whether each rule is in spacing, by number. The rules in spacing are those that repeat blanks and comments,
/// and those that are called by them alone. Takes time linear in the grammar, apart from hashing. The only error is a
/// failed allocation.
///
/// # Example
///
/// In this grammar the last two rules are in spacing:
///
/// ```text
/// Words   <- Spacing ([a-z]+ Spacing)* !.
/// Spacing <- ([ \t\n] / Comment)*
/// Comment <- '#' (!'\n' .)*
/// ```
pub fn spacing_rules(alloc: Global, grammar: &Grammar) -> Result<Vec<bool>, AllocError>
    ensures { IfOk result (λ flags. flags.items ≡ spacing_of (rules_in grammar.now)) }
{
    let gaps = all_gaps(alloc, grammar)?;
    let mut flags = repeating_rules(alloc, grammar, &gaps)?;
    'steps: for _ in 0..STEPS {
        flags = with_called(alloc, grammar, &flags)?;
    }
    Ok(flags)
}

// Returns what each rule begins with.
fn all_gaps(alloc: Global, grammar: &Grammar) -> Result<Vec<Gap>, AllocError>
    ensures { IfOk result (λ gaps. gaps.items ≡ gaps_in (rules_in grammar.now) 4) }
{
    let mut gaps = Vec::new(alloc);
    'steps: for _ in 0..STEPS {
        gaps = next_gaps(alloc, grammar, &gaps)?;
    }
    Ok(gaps)
}

// Returns what each rule begins with, given this of each rule that it names.
fn next_gaps(alloc: Global, grammar: &Grammar, gaps: &[Gap]) -> Result<Vec<Gap>, AllocError>
    ensures { IfOk result (λ next. next.items
        ≡ map (λ rule. gap_of (rules_in grammar.now) gaps.now rule.body) (rules_in grammar.now)) }
{
    let mut next = Vec::new(alloc);
    'rules: for rule in 0..grammar.rules() {
        next.push(gap_of(grammar, gaps, grammar.body(rule)))?;
    }
    Ok(next)
}

// Returns whether each rule repeats blanks and comments.
fn repeating_rules(alloc: Global, grammar: &Grammar, gaps: &[Gap]) -> Result<Vec<bool>, AllocError>
    ensures { IfOk result (λ flags. flags.items
        ≡ map (λ rule. repeats_gaps (rules_in grammar.now) gaps.now rule.body) (rules_in grammar.now)) }
{
    let mut flags = Vec::new(alloc);
    'rules: for rule in 0..grammar.rules() {
        flags.push(repeats_gaps(grammar, gaps, grammar.body(rule)))?;
    }
    Ok(flags)
}

// Returns whether an expression repeats blanks and comments.
fn repeats_gaps(grammar: &Grammar, gaps: &[Gap], expr: &Expr) -> bool
    ensures { result ≡ repeats_gaps (rules_in grammar.now) gaps.now (form_of expr.now) }
{
    match expr {
        Expr::Star { part, .. } => is_blanks(gap_of(grammar, gaps, part)),
        _ => false,
    }
}

// Returns whether a gap is blanks.
fn is_blanks(gap: Gap) -> bool
    ensures { result ≡ is_blanks gap }
{
    match gap {
        Gap::Blanks => true,
        _ => false,
    }
}

// Returns the rules with a flag, and those that are called by them alone.
fn with_called(alloc: Global, grammar: &Grammar, flags: &[bool]) -> Result<Vec<bool>, AllocError>
    ensures { IfOk result (λ next. next.items
        ≡ map (is_inside (rules_in grammar.now) flags.now) (range_with_len 0 (length (rules_in grammar.now)))) }
{
    let others = negated(alloc, flags)?;
    let inside = Called::by(alloc, grammar, flags)?;
    let outside = Called::by(alloc, grammar, &others)?;
    let mut next = Vec::new(alloc);
    'rules: for rule in 0..grammar.rules() {
        next.push(is_inside(flags, &inside, &outside, rule))?;
    }
    Ok(next)
}

// Returns whether a rule has a flag, or is called from inside alone.
fn is_inside(flags: &[bool], inside: &Called, outside: &Called, rule: u32) -> bool
    ensures { result ≡ (has_flag flags.now rule
        || (has_flag inside.now.flags.items rule && not (has_flag outside.now.flags.items rule))) }
{
    let number = rule as usize;
    has_flag(flags, number)
        || (has_flag(&inside.flags, number) && !has_flag(&outside.flags, number))
}

// Returns the other flags.
fn negated(alloc: Global, flags: &[bool]) -> Result<Vec<bool>, AllocError>
    ensures { IfOk result (λ others. others.items ≡ map not flags.now) }
{
    flags.iter().map(|flag| !*flag).collect(alloc)
}
