//! The lines of the records of texts: reads texts by name or an input in blocks, and writes the line of each record.
#![tactic(auto)]

mod fault;
mod files;
mod filter;
mod lines;
mod outcome;
mod place;
mod printer;
mod query;
mod run;

pub use fault::RecordsFault;
pub use files::write_records;
pub use filter::RecordFilter;
pub use outcome::RecordOutcome;
pub use peg_records::RecordEnd;
pub use place::RecordPlace;
pub use printer::RecordPrinter;
pub use query::RecordsQuery;
