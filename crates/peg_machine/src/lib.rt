//! The parsing machine: runs the code of a checked grammar on a text.
//!
//! What code does on a text is defined in `peg_runs`. Further definitions, in reading order:
//!
//! - `Packrat`: why no rule body runs twice at the same position.
//! - `MemoInvariant` and `RunInvariant`: the invariant of a memo, and of a run with a memo.
//! - `Entries`, `FailurePositions` and `MachineStates`: the stack and the failed tests in memory, and the invariant on them.
//! - `CoreOutcome`, `Traced` and `PackratRun`: what a run has to answer and to trace.
//! - `SelectedTests`: the failed tests that count, all or those of listed terminals.
//! - `RunContract`: all that a run promises.
//! - `Machine` and `Watched`: the views of the types of the code.
#![tactic(auto)]

mod answer;
mod call_nodes;
mod entry;
mod failure_positions;
mod fault;
mod input;
mod machine;
pub mod memo_laws;
pub mod one_byte_laws;
mod packrat;
pub mod packrat_laws;
mod rounds;
mod runner;
mod running;
mod shortcut_steps;
pub mod stack_laws;
mod steps;
mod watch;

pub use answer::Answer;
pub use fault::RunFault;
pub use packrat::run_packrat;
pub use runner::Runner;
pub use running::{run, run_among, run_selecting, run_with_shortcuts};
pub use watch::{ListWatch, NoWatch, Watch};
