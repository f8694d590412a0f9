//! Grammars made from a grammar. The failed tests of its diagnostic grammar show the furthest failure outside
//! predicates. The calls of its marked grammar show which alternatives are tried, and which alternatives and rules
//! match.
#![tactic(auto)]

mod alternatives;
mod builders;
mod diagnostic;
mod kinds;
pub mod laws;
mod loud_copies;
pub mod mark_laws;
mod marked;
mod marking;
mod quiet_copies;
mod rule_numbers;
mod spans;
mod terminals;

pub use alternatives::alternative_spans;
pub use diagnostic::diagnostic_grammar;
pub use kinds::{ItemKind, item_kinds};
pub use marked::marked_grammar;
pub use rule_numbers::item_rules;
pub use spans::item_spans;
pub use terminals::item_terminals;
