//! Tests of a grammar file: reads texts in folders, and says which of them don't do what their names ask for.
#![tactic(auto)]

mod counts;
mod ends;
mod folders;
mod paths;
mod query;
mod results;
mod tester;
mod testing;
mod trial;
mod wanted;

pub use peg_explain_files::{Ended, ExplainFault, ItemStyle, Verdict};
pub use query::TestQuery;
pub use testing::test_files;
