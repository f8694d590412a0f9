//! What is asked of a grammar file.
use peg_lint::Selection;

/// What is asked of `write_warnings`.
#[derive(Clone, Copy, Debug, PartialEq, Eq)]
pub struct LintQuery<'a> {
    /// The name of the grammar file.
    pub grammar: &'a str,
    /// The name of the rule that texts are parsed from; without a name it is the first one.
    pub start: Option<&'a str>,
    /// Which warnings are written.
    pub selection: Selection,
}
