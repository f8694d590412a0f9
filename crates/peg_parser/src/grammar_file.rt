//! Grammars of files that need not be well-formed.
ghost use Rattle.std.specs.Prelude.{All, IfOk, IfErr, length};
ghost use Rattle.peg_grammar.specs.GrammarRules.{rules_in};
ghost use Rattle.peg_notation.specs.Spans.{RuleLiesIn};
ghost use Rattle.peg_parser.specs.Accepts.{IsRead, IsAcceptedGrammar};
ghost use Rattle.peg_parser.specs.Faults.{HasCause};
ghost use Rattle.peg_parser.specs.Refusals.{IsNoGrammar};

use crate::refusal::Refusal;
use peg_grammar::Grammar;
use peg_notation::read;
use std::alloc::Global;

/// Returns the grammar of a file, well-formed or not. The file is rejected first if it isn't in the notation, then if
/// its definitions are no grammar (Ford 2004, figure 1 and section 3.1). Linear in the file, apart from hashing.
#[tactic(auto, using(crate::proofs::AcceptLemmas::accepting))]
pub fn grammar_of(alloc: Global, file: &[u8]) -> Result<Grammar, Refusal>
    ensures read { IfOk result (λ grammar. IsRead file.now (rules_in grammar)) }
    ensures taken { IfOk result (λ grammar. IsAcceptedGrammar (rules_in grammar)) }
    ensures inside { IfOk result (λ grammar. All (RuleLiesIn (length file.now)) (rules_in grammar)) }
    ensures refused { IfErr result (HasCause (IsNoGrammar file.now) (length file.now)) }
{
    let definitions = read(alloc, file)?;
    let grammar = Grammar::new(alloc, definitions)?;
    Ok(grammar)
}
