//! The evaluators of a grammar's expressions. `tests/oom/each_test.py` makes each of their allocations fail.
ghost use Rattle.std.specs.Prelude.{OnOk};
ghost use Rattle.peg_semantics.specs.WellFormed.{IsWellFormedGrammar};
ghost use Rattle.peg_grammar.specs.GrammarRules.{rules_in};

use peg_check::{CheckFault, Checked, check};
use peg_core::desugar;
use peg_grammar::{Grammar, PlainFault, TotalFault, plain_match, plain_total};
use peg_notation::read;
use std::alloc::{AllocError, Global};
use std::test::Fail;

const FILE: &[u8] = b"S <- 'a' S / 'b'\n";

const TEXT: &[u8] = b"aab";

// The checked core forms of a grammar, or why it isn't well-formed.
fn checked_of(alloc: Global, grammar: &Grammar) -> Result<Checked, CheckFault>
    ensures { OnOk result (IsWellFormedGrammar (rules_in grammar.now)) }
{
    let core = desugar(alloc, grammar)?;
    check(alloc, core)
}

// The furthest failure of the evaluator without a bound.
fn far_of(alloc: Global, grammar: &Grammar) -> Result<u32, TotalFault>
    requires { ∥ IsWellFormedGrammar (rules_in grammar.now) ∥₁ }
{
    if grammar.rules() == 0 {
        return Ok(0);
    }
    Ok(plain_total(alloc, grammar, TEXT, 0)?.far)
}

// The same for a file with a well-formed grammar.
fn far_in(alloc: Global, file: &[u8]) -> Result<u32, Fail> {
    let grammar = Grammar::new(alloc, read(alloc, file)?)?;
    match checked_of(alloc, &grammar) {
        Ok(_) => Ok(far_of(alloc, &grammar)?),
        Err(CheckFault::Memory) => Err(Fail::from(AllocError)),
        Err(_) => Err("a grammar that isn't well-formed".into()),
    }
}

// At 2 the `a` fails, and then the `b` matches.
#[test]
fn a_total_evaluation_needs_no_bound(rt: HostRuntime) -> Result<(), Fail> {
    assert_eq!(rt; far_in(rt.alloc(), FILE)?, 2);
    Ok(())
}

// The furthest failure of the evaluator with a bound on its depth.
fn far_within(alloc: Global, grammar: &Grammar, depth: u64) -> Result<u32, PlainFault> {
    if grammar.rules() == 0 {
        return Ok(0);
    }
    Ok(plain_match(alloc, grammar, TEXT, 0, depth)?.far)
}

#[test]
fn an_evaluation_has_a_bounded_depth(rt: HostRuntime) -> Result<(), Fail> {
    let grammar = Grammar::new(rt.alloc(), read(rt.alloc(), FILE)?)?;
    assert_eq!(rt; far_within(rt.alloc(), &grammar, 10)?, 2);
    Ok(())
}
