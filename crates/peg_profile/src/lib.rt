//! What a grammar does on a text: how often each rule is called, and at how many positions.
#![tactic(auto)]

mod counts;
mod profile;

pub use counts::{CallCounts, RuleProfile};
pub use profile::Profile;
