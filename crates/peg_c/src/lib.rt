//! The C library: handles, and the calls of `include/peg.h`. Each call states the clauses of its body in `peg_handle`.
#![tactic(auto)]

mod explainers;
mod explanations;
mod grammars;
mod handle;
pub mod laws;
mod lines;
mod matches;
mod parsers;
mod profiles;
mod raw_box;
mod records;
mod sharing;
mod store;
mod texts;

pub use handle::{Handle, Opaque};
pub use texts::Location;
