//! A node store with links, whose memo stores only the results that are worth their cost.
#![tactic(auto)]

mod link_table;
mod linked_result;
mod policy;
mod recent_filter;
mod rerun_cost;
mod rerun_costs;
mod room;
mod selective_store;
mod size;
mod stars;

pub use rerun_cost::RerunCost;
pub use rerun_costs::RerunCosts;
pub use selective_store::SelectiveStore;
