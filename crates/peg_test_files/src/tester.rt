//! What tests a text.
use peg_explain::Explainer;
use peg_parser::ParseOptions;

/// What tests texts: the files by name, the explainer of a grammar file, and how texts are parsed.
#[derive(Drop)]
pub(crate) struct Tester<'a, O> {
    pub(crate) files: &'a O,
    pub(crate) explainer: Explainer<'a>,
    pub(crate) options: &'a ParseOptions<'a>,
}
