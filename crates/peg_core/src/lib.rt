//! Desugars a grammar into Ford's core forms, which have the same meaning.
#![tactic(auto)]

mod builder;
mod core_forms;
mod desugaring;
pub mod laws;
mod node;
mod operators;
mod packed;
pub mod record_laws;
mod sequences;

pub use core_forms::Core;
pub use desugaring::desugar;
pub use node::Node;
