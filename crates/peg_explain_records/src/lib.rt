//! Explanations of records: reads a grammar file and the records of texts, such as the lines of a log, and says where each
//! record doesn't match.
#![tactic(auto)]

mod explaining;
mod printer;
mod query;
mod streams;

pub use explaining::explain_records;
pub use peg_explain_files::{Ended, ItemStyle, Printing, Verdict};
pub use peg_record_files::{RecordEnd, RecordsFault};
pub use query::ExplainRecordsQuery;
