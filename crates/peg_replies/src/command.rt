//! The commands of the tool.
use crate::nodes::Nodes;
use peg_lint::Selection;
use peg_parser::ParseOptions;

/// A command of the tool.
#[derive(Clone, Copy, Debug, PartialEq, Eq)]
pub enum Command<'a> {
    /// Prints the table of outcomes: what the expression of each rule can do.
    Table,
    /// Prints whether the grammar is accepted, or why not.
    Check,
    /// Prints the code of the grammar.
    Code,
    /// Prints the warnings about the grammar, for texts that are parsed from the rule with this name or from the first
    /// rule. The selection says which of them.
    Lint {
        start: Option<&'a str>,
        selection: Selection,
    },
    /// Parses a text by a rule of the grammar, and prints how often each rule is called and at how many positions.
    Profile {
        options: ParseOptions<'a>,
    },
    /// Parses a text by a rule of the grammar. With `all`, a match of less than the whole text is reported as partial.
    /// With `rows` the tree is a list of its nodes in preorder, with `no_tree` it isn't printed, otherwise it is nested
    /// objects. `no_tree` prevails over `rows`. `nodes` says which nodes of the tree are printed. With `text`, each printed
    /// node without printed children has its bytes.
    Parse {
        options: ParseOptions<'a>,
        all: bool,
        rows: bool,
        no_tree: bool,
        nodes: Nodes<'a>,
        text: bool,
    },
}
