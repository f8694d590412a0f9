//! The lexer.
ghost use Rattle.peg_lexer.specs.Tokens.{Lexes};

use crate::fault::LexFault;
use crate::scan::token;
use crate::spacing::spacing;
use crate::token::Token;
use peg_bytes::Span;
use std::alloc::Global;

/// The maximum length of a grammar file, in bytes.
pub const MAX_FILE_BYTES: usize = 1_048_576;

/// Splits a grammar file into tokens (Ford 2004, section 2.1), in one pass. Returns `FileTooLong` for a file over
/// `MAX_FILE_BYTES`, and `Memory` if an allocation fails. Returns `Syntax` at the first offset after spacing where no
/// token begins although the file continues.
pub fn lex(alloc: Global, file: &[u8]) -> Result<Vec<Token>, LexFault>
    ensures { Lexes file.now result }
{
    if file.len() > MAX_FILE_BYTES {
        return Err(LexFault::FileTooLong);
    }
    let mut tokens = Vec::new(alloc);
    let mut at = spacing(file);
    'tokens: while at < file.len() {
        let Some(front) = token(&file[at..]) else {
            return Err(LexFault::Syntax { at: at as u32 });
        };
        let end = at + front.length;
        tokens.push(Token {
            kind: front.kind,
            span: Span::new(at as u32, end as u32),
        })?;
        at = end + spacing(&file[end..]);
    }
    Ok(tokens)
}
