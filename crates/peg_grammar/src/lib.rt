//! Grammars as written, and reference evaluators of Ford's recognition relation.
#![tactic(auto)]

mod counts;
mod cut_counts;
mod evaluator;
mod expr;
mod fault;
mod found;
mod grammar;
mod name_key;
mod names;
mod names_of_grammar;
mod terminals;
mod total_evaluator;
mod weights;

pub use evaluator::{MAX_TEXT_BYTES, PlainFault, plain_match};
pub use expr::{Definition, Expr};
pub use fault::GrammarFault;
pub use grammar::{Grammar, MAX_PARTS};
pub use peg_semantics::laws;
pub use total_evaluator::{TotalFault, plain_total};
pub use weights::weight;
