//! Parsers: accepted grammar files, the reasons for rejecting others, and parsing texts.
#![tactic(auto)]

mod engine;
mod grammar_file;
mod large_code;
pub mod laws;
mod meta_reader;
mod options;
mod parse_among;
mod parser;
mod refusal;
mod session;
mod shown_parser;

pub use grammar_file::grammar_of;
pub use meta_reader::{FigureFault, read_by_figure};
pub use options::{DEFAULT_MEMO, ParseOptions};
pub use parser::{ParseFault, Parser};
pub use peg_machine::Answer;
pub use refusal::Refusal;
pub use session::Session;
pub use shown_parser::ShownParser;
