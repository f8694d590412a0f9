//! Which rules and alternatives of a grammar texts use: what matches, in predicates too, and what is tried.
#![tactic(auto)]

mod called_rules;
mod coverage;
mod coverage_parser;
mod fault;
mod text_match;
mod tracing;

pub use coverage::{Coverage, UnusedAlternative, UnusedRule};
pub use coverage_parser::CoverageParser;
pub use fault::CoverageFault;
pub use peg_parser::{ParseFault, ParseOptions};
pub use text_match::{RequiredMatch, TextMatch};
