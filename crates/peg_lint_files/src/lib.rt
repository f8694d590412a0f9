//! Warnings about a grammar file as messages for people: reads the file by name, and writes where the warnings are,
//! what they say and how to write the part instead.
#![tactic(auto)]

mod linting;
mod messages;
mod query;
mod sentences;
mod spacing;

pub use linting::write_warnings;
pub use peg_explain_files::{Ended, ExplainFault, Verdict};
pub use query::LintQuery;
