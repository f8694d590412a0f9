//! Explanations: where texts don't match a grammar file, and why a grammar file is refused, as messages for people.
#![tactic(auto)]

mod blames;
mod expected;
mod explainer;
mod mismatch;
mod names;
mod near_names;
mod outcomes;
mod parts;
mod refusals;
mod style;

pub use blames::compile_blames;
pub use explainer::Explainer;
pub use mismatch::{Analysis, ExpectedItem, Mismatch, Wording};
pub use refusals::refusal_message;
pub use style::ItemStyle;
