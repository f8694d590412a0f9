//! Messages that the program never writes: items of no grammar, and refusals of no file.
ghost use Rattle.std.specs.Prelude.{◌≢◌, ◌≤◌, length};
ghost use Rattle.peg_bytes.specs.Place.{max_offset};
ghost use Rattle.peg_parser.specs.Faults.{IsTrueRefusal};

use peg_bytes::Span;
use peg_explain::refusal_message;
use peg_grammar::{GrammarFault, MAX_PARTS};
use peg_messages::{Failure, Item, SyntaxCause, TextLines, syntax_cause};
use peg_parser::Refusal;
use std::alloc::Global;
use std::process::Abort;
use std::test::Fail;

// Compares the message for a failure at the start of the text `z`, where items of a grammar file are expected.
fn assert_listed(
    rt: &impl Abort,
    alloc: Global,
    grammar: &[u8],
    expected: &[Item<'_>],
    message: &[u8],
) -> Result<(), Fail> {
    let failure = Failure {
        name: b"t",
        text: b"z",
        lines: TextLines::File,
        grammar,
        at: 0,
        expected,
        is_end_expected: false,
    };
    assert!(rt; failure.at as usize <= failure.text.len());
    assert!(rt; failure.at <= 2_147_483_647);
    assert!(rt; failure.expected.len() < 4_294_967_296);
    let mut out = Vec::new(alloc);
    failure.write(alloc, &mut out)?;
    assert_eq!(rt; out.as_slice(), message);
    Ok(())
}

// A predicate of a predicate needs parentheses, and a sign needs a part. A name is never written with a rule, and the
// items of a rule follow each other.
#[test]
fn items_of_no_grammar_are_written(rt: HostRuntime) -> Result<(), Fail> {
    let alloc = rt.alloc();
    let plain = Item {
        span: Span::new(0, 100),
        rule: None,
        name: None,
        is_left_out: false,
    };
    let named = Item {
        name: Some("Number"),
        ..plain
    };
    let ruled = Item {
        rule: Some("Sum"),
        ..named
    };
    let cases: [(&[u8], &[Item<'_>], &[u8]); 5] = [
        (
            b"!!'x'",
            &[plain],
            b"t:1:1: expected something other than !'x', found 'z'\nz\n^\n",
        ),
        (
            b"!",
            &[plain],
            b"t:1:1: expected something other than , found 'z'\nz\n^\n",
        ),
        (b"", &[plain], b"t:1:1: expected , found 'z'\nz\n^\n"),
        (
            b"'a'",
            &[named, plain, named],
            b"t:1:1: expected Number or 'a', found 'z'\nz\n^\n",
        ),
        (
            b"'a'",
            &[ruled],
            b"t:1:1: expected Number in Sum, found 'z'\nz\n^\n",
        ),
    ];
    for (grammar, expected, message) in cases {
        assert_listed(&rt, alloc, grammar, expected, message)?;
    }
    Ok(())
}

// Compares the message for a refusal of a file.
fn assert_message(
    rt: &impl Abort,
    alloc: Global,
    file: &[u8],
    refusal: &Refusal,
    message: &str,
) -> Result<(), Fail>
    requires short { length file.now ≤ max_offset }
    requires true_refusal { IsTrueRefusal (length file.now) refusal.now }
    requires has_cause { refusal.now ≢ Refusal.Memory }
{
    let written = refusal_message(alloc, b"g.peg", file, refusal)?;
    assert!(rt; written.as_slice() == message.as_bytes(), "{message}");
    Ok(())
}

// No file is refused for these, and none at an offset after its end.
#[test]
fn reasons_of_grammars_without_a_file_are_one_line(rt: HostRuntime) -> Result<(), Fail> {
    let alloc = rt.alloc();
    let refusal = Refusal::Grammar(GrammarFault::NoRule);
    assert_message(&rt, alloc, b"", &refusal, "g.peg: the file has no rule\n")?;
    let refusal = Refusal::Grammar(GrammarFault::TooManyParts);
    let message = "g.peg: the grammar has more than 4194304 parts\n";
    assert_message(&rt, alloc, b"", &refusal, message)?;
    let digits = MAX_PARTS.to_string(alloc)?;
    assert!(rt; message.contains(digits.as_str()));
    assert_eq!(rt; syntax_cause(b"A <- 'x'", 100), SyntaxCause::EndsEarly);
    Ok(())
}
