//! What is asked of the records of texts.
use peg_coverage::RequiredMatch;
use peg_parser::ParseOptions;
use peg_records::RecordEnd;

/// What is asked of `cover_records`.
#[derive(Clone, Copy, Debug, PartialEq, Eq)]
pub struct CoverQuery<'a> {
    /// The names of the texts; none for the input.
    pub texts: &'a [String],
    /// How records end.
    pub end: RecordEnd,
    /// How a record is parsed.
    pub options: ParseOptions<'a>,
    /// How much of a record has to match, for the record to count as a match.
    pub needed: RequiredMatch,
}
