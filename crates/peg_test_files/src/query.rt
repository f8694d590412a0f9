//! What is asked of a test: a grammar file, folders of texts, and how texts are parsed.
use peg_explain_files::ItemStyle;
use peg_parser::ParseOptions;

/// What is asked of `test_files`.
#[derive(Clone, Copy, Debug, PartialEq, Eq)]
pub struct TestQuery<'a> {
    /// The name of the grammar file.
    pub grammar: &'a str,
    /// The names of the folders.
    pub folders: &'a [String],
    /// How the texts are parsed.
    pub options: ParseOptions<'a>,
    /// How messages write the items that are expected.
    pub style: ItemStyle,
}
