//! Reading grammar files.
ghost use Rattle.std.specs.Prelude.{◌≡◌, ◌≢◌, ◌<◌, ◌≤◌, IfErr, IfOk, IfSome, length};
ghost use Rattle.peg_metagrammar.specs.Notation.{max_file_bytes};
ghost use Rattle.peg_handle.specs.Explanations.{IsCompiled};
ghost use Rattle.peg_handle.specs.ReadFaults.{IsRejectedBy};
ghost use Rattle.peg_handle.specs.Rejections.{IsRejectionOf};
ghost use Rattle.peg_parser.specs.Accepts.{Accepts};
ghost use Rattle.peg_parser.specs.Faults.{HasCause, HasDefinitionsOf, RefusalMeaning};
ghost use Rattle.peg_parser.specs.Parser.{parser_rules};
ghost use Rattle.peg_parser.specs.Refusals.{IsRefusalOf};

use crate::content::{GrammarFile, Rejection, TextExplainer};
use crate::rejection::rejection_for;
use peg_explain::compile_blames;
use peg_notation::{MAX_FILE_BYTES, NotationFault};
use peg_parser::{Parser, Refusal};
use std::alloc::{AllocError, Global};

/// Why a grammar file gives no parser.
#[derive(Drop)]
pub enum ReadFault {
    /// The file is rejected.
    Rejected(Rejection),
    /// An allocation failed.
    Memory,
}

impl From<AllocError> for ReadFault {
    ghost use Rattle.std.specs.Prelude.{◌≡◌};
    ghost use Rattle.peg_handle.specs.declared.reading.ReadFault.TheVariants.{Memory};

    ghost from_gives = { λ _ fault. fault ≡ Memory };

    fn from(_error: AllocError) -> ReadFault {
        ReadFault::Memory
    }
}

/// Returns a grammar file and its parser, or why the file is rejected. See `Parser::from_file`.
pub fn read(alloc: Global, file: &[u8]) -> Result<GrammarFile, ReadFault>
    ensures accepted { IfOk result (λ grammar. Accepts file.now (parser_rules grammar.parser)) }
    ensures bytes { IfOk result (λ grammar. grammar.bytes.items ≡ file.now) }
    ensures rejected { IfErr result (IsRejectedBy file.now) }
{
    if file.len() > MAX_FILE_BYTES {
        return Err(ReadFault::Rejected(too_long(alloc, file)?));
    }
    match Parser::from_file(alloc, file) {
        Ok(parser) => Ok(with_bytes(alloc, file, parser)?),
        Err(Refusal::Memory) => Err(ReadFault::Memory),
        Err(refusal) => Err(ReadFault::Rejected(rejection(alloc, file, &refusal)?)),
    }
}

/// Returns a grammar file, its parser and the compiled grammar of its explanations, or why the file is rejected.
pub fn read_explainer(alloc: Global, file: &[u8]) -> Result<TextExplainer, ReadFault>
    ensures accepted { IfOk result (λ explainer. Accepts file.now (parser_rules explainer.grammar.parser)) }
    ensures bytes { IfOk result (λ explainer. explainer.grammar.bytes.items ≡ file.now) }
    ensures compiled { IfOk result IsCompiled }
    ensures rejected { IfErr result (IsRejectedBy file.now) }
{
    let grammar = read(alloc, file)?;
    let blames = compile_blames(alloc, &grammar.parser)?;
    Ok(TextExplainer { grammar, blames })
}

// Returns a parser with a copy of its grammar file.
fn with_bytes(alloc: Global, file: &[u8], parser: Parser) -> Result<GrammarFile, AllocError>
    ensures parser { IfOk result (λ grammar. grammar.parser ≡ parser) }
    ensures bytes { IfOk result (λ grammar. grammar.bytes.items ≡ file.now) }
{
    let mut bytes = Vec::new(alloc);
    bytes.extend_from_slice(file)?;
    Ok(GrammarFile { bytes, parser })
}

// Reports that a file is too long. The file itself isn't read: it may be longer than offsets reach.
fn too_long(alloc: Global, file: &[u8]) -> Result<Rejection, AllocError>
    requires { max_file_bytes < length file.now }
    ensures { IfOk result (IsRejectionOf file.now) }
{
    rejection_for(alloc, &[], &Refusal::Notation(NotationFault::FileTooLong))
}

// Reports why a file is rejected.
fn rejection(alloc: Global, file: &[u8], refusal: &Refusal) -> Result<Rejection, AllocError>
    requires short { length file.now ≤ max_file_bytes }
    requires cause { HasCause (IsRefusalOf file.now) (length file.now) refusal.now }
    requires meaning { RefusalMeaning file.now refusal.now }
    requires definitions { HasDefinitionsOf file.now refusal.now }
    requires not_memory { refusal.now ≢ Refusal.Memory }
    ensures { IfOk result (IsRejectionOf file.now) }
{
    rejection_for(alloc, file, refusal)
}
