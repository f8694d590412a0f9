//! How the answer of a parse is printed.
use crate::nodes::Nodes;
use peg_json::TreeForm;

/// How the answer of a parse is printed.
#[derive(Clone, Copy, Debug, PartialEq, Eq)]
pub struct TreePrinting<'a> {
    /// Whether a match of less than the whole text is reported as partial.
    pub all: bool,
    /// The form of the tree.
    pub form: TreeForm,
    /// Which nodes of the tree are printed.
    pub nodes: Nodes<'a>,
    /// Whether each printed node without printed children has its bytes.
    pub with_bytes: bool,
}
