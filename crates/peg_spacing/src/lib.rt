//! Which rules of a grammar are spacing: what may stand between the words of a text.
#![tactic(auto)]

mod called;
mod gaps;
mod spacing;

pub use spacing::spacing_rules;
