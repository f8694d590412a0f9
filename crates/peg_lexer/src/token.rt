//! Tokens of a grammar file.
use peg_bytes::Span;

/// The kinds of tokens (Ford 2004, section 2.1).
#[derive(Clone, Copy, Debug, PartialEq, Eq)]
pub enum TokenKind {
    /// A name.
    Ident,
    /// A literal: characters in quotes.
    Literal,
    /// A class: byte ranges in brackets.
    Class,
    /// `<-`
    Arrow,
    /// `/`
    Slash,
    /// `&`
    And,
    /// `!`
    Not,
    /// `?`
    Question,
    /// `*`
    Star,
    /// `+`
    Plus,
    /// A count: one number, or two separated by a comma, in braces.
    Count,
    /// `(`
    Open,
    /// `)`
    Close,
    /// `.`
    Dot,
}

/// A token: its kind, and the span of its text in the file, without the spacing after it.
#[derive(Clone, Copy, Debug, PartialEq, Eq)]
pub struct Token {
    pub kind: TokenKind,
    pub span: Span,
}
