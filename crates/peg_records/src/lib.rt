//! The records of a stream, such as the lines of a log: read in blocks, given one after the other.
#![tactic(auto)]

mod end;
mod line_feeds;
mod reader;

pub use end::RecordEnd;
pub use reader::RecordReader;
