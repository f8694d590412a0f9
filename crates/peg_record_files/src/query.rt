//! What is asked of the records of texts.
use crate::filter::RecordFilter;
use peg_records::RecordEnd;

/// What is asked of `write_records`.
#[derive(Clone, Copy, Debug, PartialEq, Eq)]
pub struct RecordsQuery<'a> {
    /// The names of the texts; none for the input.
    pub texts: &'a [String],
    /// How records end.
    pub end: RecordEnd,
    /// Which records have a line.
    pub filter: RecordFilter,
}
