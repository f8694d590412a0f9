//! The lexer of grammar files: tokens, by the rules of the metagrammar, and the values of names, literals, classes and
//! counts.
#![tactic(auto)]

mod counts;
mod fault;
pub mod laws;
mod lexer;
mod scan;
mod scan_literals;
mod spacing;
mod token;
mod token_values;

pub use counts::{Bounds, count_bounds};
pub use fault::LexFault;
pub use lexer::{MAX_FILE_BYTES, lex};
pub use scan_literals::{SpelledRange, chars_before, classed_range, ranges_before_bracket};
pub use token::{Token, TokenKind};
pub use token_values::{class_of_token, literal_bytes, name_text};
