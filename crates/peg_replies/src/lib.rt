//! Replies: the line of JSON for a command on a grammar file and a text.
#![tactic(auto)]

mod command;
mod joined;
mod linting;
mod loading;
mod nodes;
mod parse;
mod prepare;
mod profiling;
mod record_parser;
mod record_session;
mod tool;
mod tree_printing;
mod write;

pub use command::Command;
pub use joined::{joined_line, run_joined};
pub use nodes::Nodes;
pub use prepare::{Prepared, prepare_records};
pub use record_parser::RecordParser;
pub use record_session::RecordSession;
pub use tool::{reply_line, run_tool};
pub use tree_printing::TreePrinting;
pub use write::{ToolFault, write_line};
