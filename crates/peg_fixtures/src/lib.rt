//! Grammars, texts and expected outcomes that several test crates use.
#![tactic(auto)]

pub mod grammars;
mod outcomes;
mod texts;

pub use outcomes::{Case, Node, failed, matched, node};
pub use texts::{nest, nest_rule, repeat_then};
