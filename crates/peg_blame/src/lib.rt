//! Blame: the furthest failure of a text outside predicates, in items of the grammar as written.
#![tactic(auto)]

mod blame_parser;
mod calls_at;
mod fault;

pub use blame_parser::BlameParser;
pub use fault::BlameFault;
pub use peg_parser::{Answer, ParseFault, ParseOptions};
