//! Why a grammar file isn't in the notation.

/// Why a grammar file isn't in the notation.
#[derive(Clone, Copy, Debug, PartialEq, Eq)]
pub enum SyntaxCause {
    /// The file ends too early.
    EndsEarly,
    /// The file begins with a byte order mark.
    ByteOrderMark,
    /// A comment in the last line has no line end.
    OpenComment,
    /// A literal isn't closed.
    OpenLiteral,
    /// A class isn't closed.
    OpenClass,
    /// The backslash at this offset begins no escape.
    BadEscape { at: u32 },
    /// A comment begins with `/*` or `//`.
    OtherComment,
    /// A name with a colon labels an expression.
    Label,
    /// A backslash is written outside literals and classes.
    BareEscape,
    /// A count has no second number, as in `{2,}`.
    OpenCount,
    /// Braces hold something else than a count.
    Braces,
    /// A no-break space is written outside literals, classes and comments.
    NoBreakSpace,
    /// A class has a name after a percent sign.
    NamedClass,
    /// `<` begins a capture in an expression.
    Capture,
    /// `=`, `:`, `->` or `<` is written in place of the arrow of a definition.
    NoArrow,
    /// A bar separates alternatives.
    Bar,
    /// A semicolon ends a definition.
    Semicolon,
    /// The token can't follow those before it, or no token begins with this byte.
    Unexpected,
}
