//! The compiler and the code of a checked grammar, which the parsing machine runs.
#![tactic(auto)]

mod compiler;
mod fault;
mod instr;
mod instr_refs;
pub mod laws;
mod packed_code;
mod program;
mod sizes;
mod tasks;
mod written_sizes;

pub use compiler::{MAX_INSTRUCTIONS, compile};
pub use fault::CodeFault;
pub use instr::Instr;
pub use instr_refs::InstrRef;
pub use program::Program;
pub use written_sizes::code_size;
