//! Reads grammar files from their tokens, by the metagrammar: Ford's figure 1 with the extensions.
#![tactic(auto)]

mod expressions;
mod fault;
mod file;
pub mod laws;
mod reader;
mod rules;

pub use fault::NotationFault;
pub use file::read;
pub use peg_lexer::{Bounds, LexFault, MAX_FILE_BYTES, Token, TokenKind, count_bounds, lex};
pub use peg_metagrammar::{MAX_OPEN, figure, figure_text};
