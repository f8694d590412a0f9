//! Expressions and definitions as written in a grammar file.
use peg_bytes::{ByteSet, Span};
use std::alloc::Global;

/// An expression as written, with the sugar kept (Ford 2004, section 3.1), and its span in the file.
#[derive(Debug, Drop)]
pub enum Expr {
    /// These bytes in order. The empty literal matches without consuming.
    Literal {
        bytes: Vec<u8>,
        span: Span,
    },
    /// One byte of the set. The empty class never matches.
    Class {
        set: ByteSet,
        span: Span,
    },
    /// Any one byte.
    Any {
        span: Span,
    },
    /// A call of the rule with this name.
    Name {
        name: String,
        span: Span,
    },
    /// All items in order. The empty sequence matches without consuming.
    Seq {
        items: Vec<Expr>,
        span: Span,
    },
    /// The first alternative that succeeds, all tried at the same position.
    Choice {
        first: Box<Expr>,
        rest: Vec<Expr>,
        span: Span,
    },
    /// The part, or nothing if the part fails.
    Optional {
        part: Box<Expr>,
        span: Span,
    },
    /// The part, repeated until it fails.
    Star {
        part: Box<Expr>,
        span: Span,
    },
    /// The part once, then repeated until it fails.
    Plus {
        part: Box<Expr>,
        span: Span,
    },
    /// The part at least `min` and at most `max` times, repeated until it fails.
    Counted {
        part: Box<Expr>,
        min: u8,
        max: u8,
        span: Span,
    },
    /// Matches if the part matches, without consuming.
    And {
        part: Box<Expr>,
        span: Span,
    },
    /// Matches if the part fails, without consuming.
    Not {
        part: Box<Expr>,
        span: Span,
    },
}

/// A rule as written: its name, the span of the name in the file, and its expression.
#[derive(Debug, Drop)]
pub struct Definition {
    pub name: String,
    pub span: Span,
    pub body: Expr,
}
