//! Runs of a program's code on a text, in terms of records (Ford 2004, section 3.3): what code does in one rule's body,
//! and what all active calls expect. The crate holds definitions and laws only; nothing in it is executed at run time.
//!
//! Its definitions, in reading order:
//!
//! - `CodeLayout`: where the code of a form is.
//! - `Steps`: how many steps a form takes.
//! - `Local` and `Runs`: the machine local to one rule's body, and what code does in it.
//! - `OpenRows`, `Running` and `Starts`: the result that each active call expects.
//! - `Noted` and `PartialRuns`: the invariant of a run.
//! - `Accounts`: the steps of a run in terms of own steps and plain steps.
#![tactic(auto)]

pub mod account_laws;
pub mod laws;
pub mod run_laws;
pub mod step_laws;
