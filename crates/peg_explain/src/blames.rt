//! The parser of blame by which an explainer finds where a text doesn't match.
ghost use Rattle.std.specs.Prelude.{◌≡◌, IfOk};
ghost use Rattle.peg_explain.specs.Explainers.{IsBlameOf, blames_in};
ghost use Rattle.peg_parser.specs.Parser.{parser_rules};

use peg_blame::{BlameFault, BlameParser};
use peg_parser::Parser;
use std::alloc::{AllocError, Global};

/// Compiles the diagnostic grammar of a parser's grammar. Returns nothing if the diagnostic grammar is over a limit
/// that the grammar meets. The only error is a failed allocation.
pub fn compile_blames(alloc: Global, parser: &Parser) -> Result<Option<BlameParser>, AllocError>
    ensures { IfOk result (IsBlameOf (parser_rules parser.now)) }
{
    match BlameParser::new(alloc, parser.grammar()) {
        Ok(blames) => Ok(Some(blames)),
        Err(BlameFault::Memory) => Err(AllocError),
        Err(_) => Ok(None),
    }
}

// The parser of blame of an explainer, if there is one.
#[derive(Drop)]
pub(crate) enum Blames<'a> {
    // The explainer compiled it.
    Owned(Option<BlameParser>),
    // It is kept for several explainers.
    Kept(&'a Option<BlameParser>),
}

impl Blames<'_> {
    pub(crate) fn get(&self) -> &Option<BlameParser>
        ensures { result.now ≡ blames_in self.now }
    {
        match self {
            Blames::Owned(blames) => blames,
            Blames::Kept(blames) => blames,
        }
    }
}
