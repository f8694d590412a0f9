//! Definitions that no file has, and the evaluator with a bounded depth.
use peg_bytes::Span;
use peg_fixtures::grammars::RIGHT;
use peg_grammar::{Definition, Expr, Grammar, GrammarFault, PlainFault, plain_match};
use peg_notation::read;
use peg_tree::Parsed;
use std::alloc::{AllocError, Global};
use std::test::Fail;

// One rule with this body.
fn only_rule(alloc: Global, body: Expr) -> Result<Vec<Definition>, Fail> {
    let (name, span) = (String::from_str(alloc, "A")?, Span::new(0, 1));
    let mut definitions = Vec::new(alloc);
    definitions.push(Definition { name, span, body })?;
    Ok(definitions)
}

// A count of a part.
fn counted(alloc: Global, part: Expr, bounds: (u8, u8), span: Span) -> Result<Expr, AllocError> {
    let part = Box::new(alloc, part)?;
    let (min, max) = bounds;
    Ok(Expr::Counted {
        part,
        min,
        max,
        span,
    })
}

// Why these definitions are no grammar.
fn refusal_of(alloc: Global, definitions: Vec<Definition>) -> Option<GrammarFault> {
    Grammar::new(alloc, definitions).err()
}

// Where the fault of a rule with a count of a count of a dot is.
fn fault_of_counts(alloc: Global, inner: (u8, u8), outer: (u8, u8)) -> Result<Option<u32>, Fail> {
    let span = Span::new(7, 8);
    let part = counted(alloc, Expr::Any { span }, inner, Span::new(6, 18))?;
    let body = counted(alloc, part, outer, Span::new(5, 18))?;
    match refusal_of(alloc, only_rule(alloc, body)?) {
        Some(GrammarFault::BadCount { span }) => Ok(Some(span.start)),
        _ => Ok(None),
    }
}

// If both counts are out of range, the outer one is reported.
#[test]
fn the_first_count_out_of_range_is_reported(rt: HostRuntime) -> Result<(), Fail> {
    let cases = [
        ((2, 1), (1, 1), Some(6)),
        ((2, 1), (0, 0), Some(5)),
        ((1, 2), (3, 2), Some(5)),
        ((1, 1), (2, 1), Some(5)),
        ((0, 1), (255, 255), None),
    ];
    for (inner, outer, start) in cases {
        assert_eq!(rt; fault_of_counts(rt.alloc(), inner, outer)?, start);
    }
    Ok(())
}

#[test]
fn no_definition_is_no_grammar(rt: HostRuntime) {
    let none = refusal_of(rt.alloc(), Vec::new(rt.alloc()));
    assert!(rt; matches!(none, Some(GrammarFault::NoRule)));
}

// Whether a rule with a literal of this many bytes is a grammar.
fn is_grammar(alloc: Global, bytes: usize) -> Result<bool, Fail> {
    let bytes = vec![in alloc; b'a'; bytes]?;
    let span = Span::new(0, 0);
    let definitions = only_rule(alloc, Expr::Literal { bytes, span })?;
    Ok(refusal_of(alloc, definitions).is_none())
}

// A rule with a literal weighs two more than its bytes, and a grammar at most 4,194,304.
#[test]
fn most_parts_are_a_grammar(rt: HostRuntime) -> Result<(), Fail> {
    for (bytes, fits) in [(4_194_302, true), (4_194_303, false)] {
        assert_eq!(rt; is_grammar(rt.alloc(), bytes)?, fits);
    }
    Ok(())
}

// Where the evaluator's match of aab ends, with a bound on its depth.
fn end_of(alloc: Global, grammar: &Grammar, depth: u64) -> Result<Option<u32>, PlainFault> {
    if grammar.rules() == 0 {
        return Ok(None);
    }
    match plain_match(alloc, grammar, b"aab", 0, depth)?.result {
        Parsed::Matched { end, .. } => Ok(Some(end)),
        Parsed::Failed => Ok(None),
    }
}

#[test]
fn the_evaluator_has_a_bounded_depth(rt: HostRuntime) -> Result<(), Fail> {
    let grammar = Grammar::new(rt.alloc(), read(rt.alloc(), RIGHT)?)?;
    assert_eq!(rt; end_of(rt.alloc(), &grammar, 9), Err(PlainFault::DepthUsed));
    assert_eq!(rt; end_of(rt.alloc(), &grammar, 10), Ok(Some(3)));
    Ok(())
}
