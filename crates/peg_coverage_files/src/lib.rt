//! Coverage of files: reads texts by name, or the records of texts, and says which rules and alternatives of a grammar
//! they use.
#![tactic(auto)]

mod counts;
mod cover_query;
mod cover_run;
mod covered;
mod covering;
mod fault;
mod reading;
mod records;

pub use cover_query::CoverQuery;
pub use covering::cover_files;
pub use fault::CoveringFault;
pub use peg_coverage::{Coverage, CoverageParser, RequiredMatch};
pub use peg_records::RecordEnd;
pub use records::cover_records;
