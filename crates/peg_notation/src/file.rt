//! Reads a grammar file.
ghost use Rattle.std.specs.Prelude.{IfOk, length};
ghost use Rattle.peg_grammar.specs.Written.{rules_of};
ghost use Rattle.peg_metagrammar.specs.Nesting.{max_open};
ghost use Rattle.peg_notation.specs.Reads.{Reads};
ghost use Rattle.peg_notation.specs.Spans.{AnswerLiesIn};
ghost use Rattle.peg_notation.specs.ViablePrefix.{NamesFirstFault};
ghost use Rattle.peg_semantics.specs.WrittenLoops.{SpansNameLoops};

use crate::fault::NotationFault;
use crate::reader::Reader;
use peg_grammar::Definition;
use peg_lexer::lex;
use std::alloc::Global;

/// Reads the definitions of a grammar file, in order (Ford 2004, section 2.1). Takes linear time.
///
/// The error is `FileTooLong` for more than `MAX_FILE_BYTES` bytes, and `Syntax` where no token starts. Once the file
/// is tokenized, the error is the first of three in file order. `Syntax` is at the first token that can't follow those
/// before it in any file of the notation, or at the file's length if the file ends too early. `TooNested` is at a
/// parenthesis that opens while `MAX_OPEN` are open. `BadCount` is at a count after an expression that is out of range.
/// The error is `Memory` if an allocation fails.
///
/// # Example
///
/// ```
/// let definitions = read(alloc, b"S <- 'a' S / 'b'")?;
/// assert_eq!(definitions[0].name, "S");
/// ```
pub fn read(alloc: Global, file: &[u8]) -> Result<Vec<Definition>, NotationFault>
    ensures reads { Reads file.now result }
    ensures inside { AnswerLiesIn (length file.now) result }
    ensures first { NamesFirstFault max_open file.now result }
    ensures loops { IfOk result (λ definitions. SpansNameLoops (rules_of definitions.items)) }
{
    let tokens = lex(alloc, file)?;
    let reader = Reader { alloc, file };
    let read = reader.grammar(&tokens)?;
    Ok(read.definitions)
}
