//! Tokens and bodies of grammar files, worked out by hand from the metagrammar.
use peg_notation::{Bounds, LexFault, NotationFault, Token, TokenKind, count_bounds, lex, read};
use std::alloc::Global;
use std::test::Fail;

// A token: its kind, its start, and its end.
type Seen = (TokenKind, u32, u32);

fn seen(token: &Token) -> Seen {
    (token.kind, token.span.start, token.span.end)
}

#[test]
fn tokens_have_kinds_and_spans(rt: HostRuntime) -> Result<(), Fail> {
    let wanted = [
        (TokenKind::Ident, 1, 4),
        (TokenKind::Arrow, 9, 11),
        (TokenKind::Literal, 13, 16),
        (TokenKind::Literal, 16, 19),
        (TokenKind::Class, 19, 22),
        (TokenKind::Slash, 23, 24),
        (TokenKind::And, 25, 26),
        (TokenKind::Not, 26, 27),
        (TokenKind::Question, 27, 28),
        (TokenKind::Star, 28, 29),
        (TokenKind::Plus, 29, 30),
        (TokenKind::Count, 30, 35),
        (TokenKind::Open, 36, 37),
        (TokenKind::Close, 37, 38),
        (TokenKind::Dot, 40, 41),
    ];
    let file = b"\ta_1 # c\n<-\r\n'b'\"c\"[d] / &!?*+{1,2} ()\r\t. ";
    let tokens = lex(rt.alloc(), file)?;
    let found: Vec<Seen> = tokens.iter().map(seen).collect(rt.alloc())?;
    assert_eq!(rt; found.as_slice(), wanted.as_slice());
    Ok(())
}

// The printed definitions of a file.
fn printed(alloc: Global, file: &[u8]) -> Result<String, Fail> {
    let definitions = read(alloc, file)?;
    Ok(format!(in alloc; "{definitions:?}")?)
}

// Each file with its body. The span of an expression is without the spacing after it. That of an empty sequence is at
// the end of the token before it.
const BODIES: [(&[u8], &str); 5] = [
    (
        b"A <- / / 'x'",
        "Choice { first: Seq { items: [], span: Span { start: 4, end: 4 } }, \
        rest: [Seq { items: [], span: Span { start: 6, end: 6 } }, \
        Literal { bytes: [120], span: Span { start: 9, end: 12 } }], span: Span { start: 5, end: 12 } }",
    ),
    (
        b"A <- !(!A )  \n",
        "Not { part: Not { part: Name { name: \"A\", span: Span { start: 8, end: 9 } }, \
        span: Span { start: 7, end: 9 } }, span: Span { start: 5, end: 11 } }",
    ),
    (
        b"A <- &(. A)+",
        "And { part: Plus { part: Seq { items: [Any { span: Span { start: 7, end: 8 } }, \
        Name { name: \"A\", span: Span { start: 9, end: 10 } }], span: Span { start: 7, end: 10 } }, \
        span: Span { start: 6, end: 12 } }, span: Span { start: 5, end: 12 } }",
    ),
    (
        b"A <- !('a' .){0,1} # c\n",
        "Not { part: Counted { part: Seq { items: [Literal { bytes: [97], span: Span { start: 7, end: 10 } }, \
        Any { span: Span { start: 11, end: 12 } }], span: Span { start: 7, end: 12 } }, \
        min: 0, max: 1, span: Span { start: 6, end: 18 } }, span: Span { start: 5, end: 18 } }",
    ),
    (
        b"A <- 'a'  'b'? / \"\"",
        "Choice { first: Seq { items: [Literal { bytes: [97], span: Span { start: 5, end: 8 } }, \
        Optional { part: Literal { bytes: [98], span: Span { start: 10, end: 13 } }, \
        span: Span { start: 10, end: 14 } }], span: Span { start: 5, end: 14 } }, \
        rest: [Literal { bytes: [], span: Span { start: 17, end: 19 } }], span: Span { start: 5, end: 19 } }",
    ),
];

#[test]
fn bodies_are_read(rt: HostRuntime) -> Result<(), Fail> {
    let alloc = rt.alloc();
    for (file, body) in BODIES {
        let found = printed(alloc, file)?;
        let name = "name: \"A\", span: Span { start: 0, end: 1 }";
        let wanted = format!(in alloc; "[Definition {{ {name}, body: {body} }}]")?;
        assert_eq!(rt; found.as_str(), wanted.as_str(), "in {file:?}");
    }
    Ok(())
}

// The texts of the faults.
const FAULTS: [(NotationFault, &str); 5] = [
    (NotationFault::FileTooLong, "the grammar file is too long"),
    (
        NotationFault::Syntax { at: 7 },
        "the grammar file isn't in the notation, at byte 7",
    ),
    (
        NotationFault::TooNested { at: 0 },
        "too many parentheses are open at byte 0 of the grammar file",
    ),
    (
        NotationFault::BadCount { at: 8 },
        "the count at byte 8 of the grammar file is out of range",
    ),
    (NotationFault::Memory, "out of memory"),
];

const LEX_FAULTS: [(LexFault, &str); 3] = [
    (LexFault::FileTooLong, "the grammar file is too long"),
    (
        LexFault::Syntax { at: 7 },
        "no token begins at byte 7 of the grammar file",
    ),
    (LexFault::Memory, "out of memory"),
];

#[test]
fn each_fault_has_a_text(rt: HostRuntime) -> Result<(), Fail> {
    for (fault, wanted) in FAULTS {
        let found = format!(in rt.alloc(); "{fault}")?;
        assert_eq!(rt; found.as_str(), wanted);
    }
    Ok(())
}

#[test]
fn each_lexing_fault_has_a_text(rt: HostRuntime) -> Result<(), Fail> {
    for (fault, wanted) in LEX_FAULTS {
        let found = format!(in rt.alloc(); "{fault}")?;
        assert_eq!(rt; found.as_str(), wanted);
    }
    Ok(())
}

#[test]
fn a_count_has_bounds_if_it_is_in_range(rt: HostRuntime) {
    let (min, max) = (7, 10);
    assert_eq!(rt; count_bounds(b"{0007,010} # c"), Some(Bounds { min, max }));
    assert_eq!(rt; count_bounds(b"{4,2}"), None);
}
