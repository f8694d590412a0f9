//! Grammars with too much code.
ghost use Rattle.std.specs.Prelude.{◌<◌, List, ℕ, All, length};
ghost use Rattle.peg_code.specs.Compiled.{max_instructions};
ghost use Rattle.peg_grammar.specs.GrammarRules.{rules_in};
ghost use Rattle.peg_notation.specs.Spans.{RuleLiesIn};
ghost use Rattle.peg_parser.specs.Accepts.{IsRead, IsAcceptedGrammar, code_size};
ghost use Rattle.peg_parser.specs.Faults.{HasCause, HasDefinitionsOf};
ghost use Rattle.peg_parser.specs.Refusals.{IsRefusalOf};
ghost use Rattle.peg_semantics.specs.WrittenLoops.{SpansNameLoops};

use crate::refusal::Refusal;
use peg_check::check;
use peg_core::desugar;
use peg_grammar::Grammar;
use std::alloc::Global;

// The refusal of a file whose grammar has too much code: that the grammar isn't well-formed, or else the size of its
// code. Counts are cut to one iteration before the check, which gives the same verdict on fewer core forms.
pub(crate) fn refusal_of_large_code(alloc: Global, grammar: Grammar) -> Refusal
    requires { max_instructions < code_size (rules_in grammar) }
    ensures refused { (file : List ℕ) → IsRead file (rules_in grammar) → IsAcceptedGrammar (rules_in grammar)
        → All (RuleLiesIn (length file)) (rules_in grammar) → SpansNameLoops (rules_in grammar)
        → HasCause (IsRefusalOf file) (length file) result }
    ensures definitions { (file : List ℕ) → IsRead file (rules_in grammar) → HasDefinitionsOf file result }
{
    let grammar = grammar.with_cut_counts();
    let core = match desugar(alloc, &grammar) {
        Ok(core) => core,
        Err(error) => return Refusal::from(error),
    };
    match check(alloc, core) {
        Ok(_) => Refusal::CodeTooLarge,
        Err(fault) => Refusal::from_check(fault, grammar),
    }
}
