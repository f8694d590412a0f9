//! What texts use of a grammar.
use peg_bytes::Span;

/// What texts use of a grammar.
#[derive(Debug, Drop)]
pub struct Coverage {
    /// The number of texts.
    pub texts: u64,
    /// How many of the texts match as required.
    pub matched: u64,
    /// The numbers of the texts whose parse was stopped, from 0 on, in ascending order: it takes more steps than its limit
    /// allows. A stopped text neither matches nor uses anything.
    pub stopped: Vec<usize>,
    /// The rules that match in no text, in ascending order.
    pub unused_rules: Vec<UnusedRule>,
    /// The alternatives that match in no text, in written order.
    pub unused_alternatives: Vec<UnusedAlternative>,
}

/// A rule that matches in no text.
#[derive(Clone, Copy, Debug, PartialEq, Eq)]
pub struct UnusedRule {
    /// The number of the rule.
    pub rule: u32,
    /// Whether a text calls the rule, in a predicate or elsewhere.
    pub tried: bool,
}

/// An alternative that matches in no text.
#[derive(Clone, Copy, Debug, PartialEq, Eq)]
pub struct UnusedAlternative {
    /// The span of the alternative in the grammar file.
    pub span: Span,
    /// Whether a text tries the alternative, in a predicate or elsewhere.
    pub tried: bool,
}
