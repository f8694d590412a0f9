//! Laws of the definitions. Each function does nothing; the contract of the function is the law.
ghost use Rattle.std.specs.Prelude.{◌≡◌, ℕ, List};
ghost use Rattle.peg_metagrammar.specs.Notation.{max_file_bytes};
ghost use Rattle.peg_lexer.specs.Tokens.{Lexeme, IsTokens, IsLexingFault};

use crate::lexer::MAX_FILE_BYTES;

/// The code's limit on the length of a grammar file is the limit in the definitions.
pub fn max_file_size_matches_spec()
    ensures { MAX_FILE_BYTES ≡ max_file_bytes }
{}

/// A file has at most one list of tokens and at most one lexing fault, and never both.
pub fn a_file_has_tokens_or_one_fault()
    ensures tokens { (file : List ℕ) (first second : List Lexeme)
        → IsTokens file first → IsTokens file second → first ≡ second }
    ensures fault { (file : List ℕ) (at other : ℕ)
        → IsLexingFault file at → IsLexingFault file other → at ≡ other }
    ensures not_both { (file : List ℕ) (lexemes : List Lexeme) (at : ℕ)
        → IsTokens file lexemes → IsLexingFault file at → ⊥ }
{}
