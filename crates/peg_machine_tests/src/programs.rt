//! Programs of grammar files.
use peg_check::{CheckFault, Checked, check};
use peg_code::{Program, compile};
use peg_core::desugar;
use peg_grammar::Grammar;
use peg_notation::read;
use std::alloc::{AllocError, Global};
use std::test::Fail;

// The checked core forms of a file's grammar, or why it isn't well-formed.
fn checked_of(alloc: Global, file: &[u8]) -> Result<Result<Checked, CheckFault>, Fail> {
    let grammar = Grammar::new(alloc, read(alloc, file)?)?;
    Ok(check(alloc, desugar(alloc, &grammar)?))
}

/// Returns the program of a file with a well-formed grammar.
pub(crate) fn program_of(alloc: Global, file: &[u8]) -> Result<Program, Fail> {
    match checked_of(alloc, file)? {
        Ok(checked) => Ok(compile(alloc, checked)?),
        Err(CheckFault::Memory) => Err(Fail::from(AllocError)),
        Err(_) => Err("a grammar that isn't well-formed".into()),
    }
}
