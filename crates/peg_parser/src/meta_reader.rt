//! Reads grammar files by the metagrammar (Ford's figure 1, extended): its own code parses the file, and the tree
//! gives the definitions.
ghost use Rattle.std.specs.Prelude.{◌≡◌, ◌≤◌, ℕ, length, IfOk, IfErr, IsErrOf, MatchOption};
ghost use Rattle.peg_metagrammar.specs.Figure.{figure};
ghost use Rattle.peg_metagrammar.specs.Notation.{max_file_bytes, FigureMatches};
ghost use Rattle.peg_parser.specs.Parser.{parser_rules};
ghost use Rattle.peg_parser.specs.ReadsByFigure.{ReadsByFigure};
ghost use Rattle.peg_bootstrap.specs.FigureTrees.{IsTreeOf};

use crate::options::ParseOptions;
use crate::parser::{ParseFault, Parser};
use crate::refusal::Refusal;
use peg_bootstrap::{DefinitionsFault, definitions_of};
use peg_grammar::{Definition, Grammar};
use peg_notation::{MAX_FILE_BYTES, figure};
use peg_tree::{Outcome, Parsed, Tree};
use std::alloc::Global;
use thiserror::Error;

/// Why the metagrammar doesn't read a file.
#[derive(Clone, Copy, Debug, PartialEq, Eq, Error)]
pub enum FigureFault {
    /// The file has more than `MAX_FILE_BYTES` bytes.
    #[error("the grammar file is too long")]
    FileTooLong,
    /// The metagrammar doesn't match the file.
    #[error("the grammar file isn't in the notation")]
    NotInFigure,
    /// More than `MAX_OPEN` parentheses are open at once.
    #[error("the grammar file's parentheses nest too deep")]
    TooNested,
    /// A count is out of range; `at` is the byte offset of the first such count's brace.
    #[error("a count of the grammar file is out of range")]
    BadCount { at: u32 },
    /// Out of memory.
    #[error("out of memory")]
    Memory,
}

impl From<DefinitionsFault> for FigureFault {
    ghost use Rattle.peg_parser.specs.ReadsByFigure.{of_definitions};

    ghost from_gives = { λ fault converted. converted ≡ of_definitions fault };

    fn from(fault: DefinitionsFault) -> FigureFault {
        match fault {
            DefinitionsFault::TooNested => FigureFault::TooNested,
            DefinitionsFault::BadCount { at } => FigureFault::BadCount { at },
            DefinitionsFault::Memory => FigureFault::Memory,
        }
    }
}

/// Returns the definitions of a grammar file, in order, by the metagrammar's parse of it (Ford 2004, section 2.1).
///
/// Returns `FileTooLong` for more than `MAX_FILE_BYTES` bytes, and `NotInFigure` if the metagrammar doesn't match the
/// file. Returns `TooNested` if more than `MAX_OPEN` parentheses are open at once, otherwise `BadCount` at the first
/// count that is out of range. Returns `Memory` if an allocation fails.
pub fn read_by_figure(alloc: Global, file: &[u8]) -> Result<Vec<Definition>, FigureFault>
    ensures { ReadsByFigure file.now result }
{
    if file.len() > MAX_FILE_BYTES {
        return Err(FigureFault::FileTooLong);
    }
    let tree = figure_tree(alloc, file)?;
    Ok(definitions_of(alloc, &tree, file)?)
}

// Parses a file by the metagrammar.
fn figure_tree(alloc: Global, file: &[u8]) -> Result<Tree, FigureFault>
    requires { length file.now ≤ max_file_bytes }
    ensures tree { IfOk result (IsTreeOf file.now) }
    ensures none { IsErrOf result FigureFault.NotInFigure → ¬ FigureMatches file.now }
    ensures other { IsErrOf result FigureFault.TooNested → ⊥ }
    ensures counts { (at : ℕ) → IsErrOf result (FigureFault.BadCount at) → ⊥ }
    ensures short { IsErrOf result FigureFault.FileTooLong → ⊥ }
{
    match figure_parser(alloc) {
        Ok(parser) => parse_with(alloc, &parser, file),
        Err(_) => Err(FigureFault::Memory),
    }
}

// Parses a file by the metagrammar's parser.
fn parse_with(alloc: Global, parser: &Parser, file: &[u8]) -> Result<Tree, FigureFault>
    requires rules { parser_rules parser.now ≡ figure }
    requires short { length file.now ≤ max_file_bytes }
    ensures tree { IfOk result (IsTreeOf file.now) }
    ensures none { IsErrOf result FigureFault.NotInFigure → ¬ FigureMatches file.now }
    ensures other { IsErrOf result FigureFault.TooNested → ⊥ }
    ensures counts { (at : ℕ) → IsErrOf result (FigureFault.BadCount at) → ⊥ }
    ensures short { IsErrOf result FigureFault.FileTooLong → ⊥ }
{
    let options = ParseOptions {
        start: None,
        memo: 0,
        steps: None,
    };
    match parser.parse(alloc, file, &options) {
        Ok(answer) => match tree_of(answer.outcome) {
            Some(tree) => Ok(tree),
            None => Err(FigureFault::NotInFigure),
        },
        Err(ParseFault::NoSuchStart) => unreachable!(),
        Err(ParseFault::TextTooLong) => unreachable!(),
        Err(ParseFault::StepLimit) => unreachable!(),
        Err(ParseFault::Memory) => Err(FigureFault::Memory),
    }
}

// The tree of an outcome, if it is a match.
fn tree_of(outcome: Outcome) -> Option<Tree>
    ensures { MatchOption result (outcome.result ≡ Parsed.Failed)
        (λ tree. (end : ℕ) × (outcome.result ≡ Parsed.Matched end tree)) }
{
    let Outcome { result, .. } = outcome;
    match result {
        Parsed::Matched { tree, .. } => Some(tree),
        Parsed::Failed => None,
    }
}

// The parser of the metagrammar. The metagrammar is well-formed and its code is small, so only an allocation can fail.
fn figure_parser(alloc: Global) -> Result<Parser, Refusal>
    ensures rules { IfOk result (λ parser. parser_rules parser ≡ figure) }
    ensures memory { IfErr result (λ why. why ≡ Refusal.Memory) }
{
    let definitions = figure(alloc)?;
    let grammar = Grammar::new(alloc, definitions)?;
    Parser::from_grammar(alloc, grammar)
}
