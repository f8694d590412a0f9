//! Where texts don't match as a whole.
use peg_bytes::Span;

/// Where a text doesn't match as a whole, and what is expected there.
#[derive(Drop)]
pub struct Mismatch {
    /// The offset in the text, at most its length.
    pub at: u32,
    /// The items that are expected there, in ascending order. Of many items these are the first 65,536.
    pub expected: Vec<ExpectedItem>,
    /// The rules that a message names for all items that are a part of them, by number, in ascending order. A rule is
    /// named if it is called at the offset and fails there at once, unless it is the start, inside another such rule or
    /// left out as spacing.
    pub rules: Vec<u32>,
    /// Whether the end of the text is expected there, too.
    pub is_end_expected: bool,
    /// The failures that were analysed.
    pub analysis: Analysis,
}

/// Which failures are analysed to find a mismatch.
#[derive(Clone, Copy, Debug, PartialEq, Eq)]
pub enum Analysis {
    /// The failures of items outside predicates.
    Items,
    /// The failed tests of all terminals, also in predicates. It is used if the diagnostic grammar is over a limit.
    Tests,
}

/// An item that is expected at the offset of a mismatch.
#[derive(Clone, Copy, Debug, PartialEq, Eq)]
pub struct ExpectedItem {
    /// The bytes of the item in the grammar file.
    pub span: Span,
    /// The number of the rule that the item is in. It isn't known if the diagnostic grammar is over a limit.
    pub rule: Option<u32>,
    /// How a message writes the item.
    pub wording: Wording,
}

/// How a message writes an expected item.
#[derive(Clone, Copy, Debug, PartialEq, Eq)]
pub enum Wording {
    /// By its bytes in the grammar file.
    Spelling,
    /// As the name of its rule.
    RuleName,
    /// Not at all, since it is a part of a rule that the message names, or of spacing, and more is expected.
    LeftOut,
}
