//! Turns a tree of the metagrammar, Ford's figure 1 with the extensions, into the definitions that it denotes.
#![tactic(auto)]

mod ast_builder;
mod definitions;
mod expressions;
mod fault;
mod nesting;

pub use definitions::definitions_of;
pub use fault::DefinitionsFault;
