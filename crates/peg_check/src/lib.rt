//! Checks grammars: computes the abstract outcomes of each core form, and whether all are well-formed, or why not.
#![tactic(auto)]

mod can;
mod components;
mod cycles;
mod dependency;
mod distances;
mod fault;
mod fixpoint;
mod least_cycle;
mod loops;
mod marks;
mod next_rules;
mod reverse_deps;
mod search_order;
mod table;
mod verdict;
mod well_formedness;

pub use can::Can;
pub use fault::CheckFault;
pub use table::{Table, table_of};
pub use verdict::{Checked, check};
