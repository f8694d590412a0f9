//! Refusals of definitions that no file has. A reader never makes such definitions; other callers of `Grammar::new`
//! may.
use peg_bytes::Span;
use peg_grammar::GrammarFault;
use peg_json::{Fault, refusal_json};
use peg_parser::Refusal;
use std::process::Abort;
use std::test::Fail;

// Checks that a text is the expected one.
fn is(rt: &impl Abort, text: &str, expected: &str) {
    assert!(rt; text == expected, "{text}");
}

#[test]
fn limits_of_definitions_are_named(rt: HostRuntime) -> Result<(), Fail> {
    let refusal = Refusal::Grammar(GrammarFault::NoRule);
    let text = refusal_json(rt.alloc(), &Fault::Refused(&refusal), b"", &[])?;
    is(&rt, &text, "{\"refusal\":\"NoRule\"}");
    let refusal = Refusal::Grammar(GrammarFault::TooManyParts);
    let text = refusal_json(rt.alloc(), &Fault::Refused(&refusal), b"", &[])?;
    is(&rt, &text, "{\"refusal\":\"TooManyParts\"}");
    Ok(())
}

#[test]
fn a_count_of_definitions_is_named_at_its_expression(rt: HostRuntime) -> Result<(), Fail> {
    let span = Span::new(12, 18);
    let refusal = Refusal::Grammar(GrammarFault::BadCount { span });
    let file = b"A <- B\nB <- 'b'{0}\n";
    let text = refusal_json(rt.alloc(), &Fault::Refused(&refusal), file, &[])?;
    let wanted = "{\"at\":12,\"column\":6,\"line\":2,\"refusal\":\"BadCount\"}";
    is(&rt, &text, wanted);
    Ok(())
}
