//! Command line arguments: parsing, and the help texts.
#![tactic(auto)]

mod command_line;
mod words;

pub use words::{Words, WordsFault, read_words};
