//! Warnings about grammars. Those of `warnings` are theorems about Ford's recognition relation on the
//! grammar as written. The others say what the file has at their spans.
#![tactic(auto)]

mod alternatives;
mod classes;
mod depth;
mod digest;
mod dots;
mod edge_table;
mod edge_visit;
mod edges;
mod empty;
mod expressions;
mod file_lint;
mod file_visit;
mod findings;
mod habits;
mod heads;
mod lint;
mod never;
mod order;
mod outcomes;
mod reach;
mod repeats;
mod same;
mod selection;
mod shadows;
mod stops;
mod visit;
mod warning;

pub use file_lint::file_warnings;
pub use lint::warnings;
pub use warning::{Selection, Warning, WarningKind};
