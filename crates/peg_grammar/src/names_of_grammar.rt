//! The rule names of a grammar.
ghost use Rattle.peg_grammar.specs.GrammarRules.{rules_in};
ghost use Rattle.peg_semantics.specs.Rules.{names as names_of};

use crate::Grammar;
use peg_tree::Names;

impl Names for Grammar {
    ghost names = { λ grammar. names_of (rules_in grammar) };

    fn count(&self) -> u32 {
        self.rules()
    }

    fn name(&self, rule: u32) -> &str {
        self.rule_name(rule)
    }
}
