//! The content of a handle.
ghost use Rattle.std.specs.Prelude.{◌≡◌, map};
ghost use Rattle.peg_handle.specs.FileSpans.{file_span};
ghost use Rattle.peg_handle.specs.Levels.{parsed_levels};
ghost use Rattle.peg_parser.specs.Engine.{shown_parser_rules};
ghost use Rattle.peg_semantics.specs.Terminals.{extents_of_terminals};

use crate::refusal_info::RefusalInfo;
use peg_blame::BlameParser;
use peg_parser::{Answer, Parser, ShownParser};

/// The content of a handle.
#[derive(Drop)]
pub enum Content {
    /// An accepted grammar file.
    Accepted(GrammarFile),
    /// Why a grammar file was rejected.
    Rejected(Rejection),
    /// The answer to a parse.
    Answered(Match),
    /// Where a text doesn't match as a whole.
    Explained(Explanation),
    /// An accepted grammar file that explains texts.
    Explaining(TextExplainer),
    /// What pegtool prints about a grammar.
    Printed(PrintedLine),
    /// An accepted grammar file whose trees have the nodes of chosen rules.
    Selecting(SelectingParser),
}

/// An accepted grammar file, and its parser.
#[derive(Drop)]
pub struct GrammarFile {
    pub bytes: Vec<u8>,
    pub parser: Parser,
}

/// An accepted grammar file that explains texts: its diagnostic grammar is compiled.
#[derive(Drop)]
pub struct TextExplainer {
    pub grammar: GrammarFile,
    /// What `compile_blames` returned for the parser.
    pub blames: Option<BlameParser>,
}

/// The parser of an accepted grammar file whose trees have the root and the nodes of chosen rules.
#[derive(Drop)]
pub struct SelectingParser {
    pub parser: ShownParser,
    /// The spans of the terminals in the grammar file.
    pub terminals: Vec<FileSpan>,
    pub ghost spans: { terminals.items ≡ map file_span (extents_of_terminals (shown_parser_rules parser)) },
}

/// Why a grammar file was rejected.
#[derive(Drop)]
pub struct Rejection {
    /// The line of JSON that pegtool prints, without its line end.
    pub json: String,
    /// The message of `pegtool explain`, after the name of the file.
    pub message: Vec<u8>,
    pub info: RefusalInfo,
}

/// The answer to a parse, with what a caller needs of the grammar file.
#[derive(Drop)]
pub struct Match {
    pub answer: Answer,
    /// The spans in the grammar file of the terminals that failed at the furthest position.
    pub expected: Vec<FileSpan>,
    /// The level of each node of the tree, in preorder; the root has level 1.
    pub levels: Vec<usize>,
    pub ghost levels_match: { levels.items ≡ parsed_levels answer.outcome.result },
}

/// Where a text doesn't match as a whole.
#[derive(Drop)]
pub struct Explanation {
    /// The message of `pegtool explain`.
    pub message: Vec<u8>,
    /// The offset in the text.
    pub at: u32,
    /// The spans in the grammar file of the items that are expected there.
    pub expected: Vec<FileSpan>,
    /// Whether the end of the text is expected there, too.
    pub is_end_expected: bool,
}

/// What pegtool prints about a grammar: a line of JSON, without its line end.
#[derive(Drop)]
pub struct PrintedLine {
    pub json: String,
}

/// The bytes of a grammar file from offset `start` up to, but not including, offset `end`.
#[repr(C)]
#[derive(Clone, Copy, Debug, PartialEq, Eq)]
pub struct FileSpan {
    pub start: u32,
    pub end: u32,
}
