//! Why a grammar file is refused.

/// Why a grammar file is refused. Offsets are those of the file, from 0.
#[derive(Clone, Copy, Debug)]
pub enum Reason<'a> {
    /// The file has too many bytes.
    FileTooLong,
    /// The file isn't in the notation, at this offset.
    Syntax {
        at: u32,
    },
    /// Too many parentheses are open at this offset.
    TooNested {
        at: u32,
    },
    /// The count at this offset is out of range.
    BadCount {
        at: u32,
    },
    /// The file has no definition.
    NoRule,
    /// A rule is defined again, at this offset.
    Duplicate {
        name: &'a str,
        at: u32,
    },
    /// A name that no rule has is used at this offset. A rule may be known that is meant by it.
    Undefined {
        name: &'a str,
        meant: Option<&'a str>,
        at: u32,
    },
    /// The grammar has too many parts.
    TooManyParts,
    /// The repetition at this offset, in this rule, has a part that can match the empty string.
    EmptyLoop {
        rule: &'a str,
        at: u32,
    },
    /// Rules call each other before a byte is matched: each rule of the path the next, and the last the first. The
    /// first rule is defined at this offset.
    LeftRecursion {
        path: &'a [&'a str],
        at: u32,
    },
    /// The grammar's code has too many instructions.
    CodeTooLarge,
}
