//! What is asked of the records of texts.
use peg_explain_files::{ItemStyle, Printing};
use peg_parser::ParseOptions;
use peg_record_files::RecordEnd;

/// What is asked of `explain_records`.
#[derive(Clone, Copy, Debug, PartialEq, Eq)]
pub struct ExplainRecordsQuery<'a> {
    /// The name of the grammar file.
    pub grammar: &'a str,
    /// The names of texts; none for the input.
    pub texts: &'a [String],
    /// How records end.
    pub end: RecordEnd,
    /// How the records are parsed.
    pub options: ParseOptions<'a>,
    /// How messages write the items that are expected.
    pub style: ItemStyle,
    /// What is printed.
    pub printing: Printing,
    /// The greatest number of messages for the records of a text; none if there is no limit.
    pub max_errors: Option<u64>,
}
