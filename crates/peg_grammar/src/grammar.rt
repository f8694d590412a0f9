//! Grammars: rules with distinct names and without undefined references.
ghost use Rattle.std.specs.Prelude.{◌≡◌, ◌≤◌, ◌<◌, length, position, bytes_eq, slice_get, Some, IfOk, IfErr, OnOk};
ghost use Rattle.std.specs.Prelude.{option_map};
ghost use Rattle.peg_bytes.specs.Extent.{extent};
ghost use Rattle.peg_semantics.specs.CutCounts.{cut_rules};
ghost use Rattle.peg_semantics.specs.Grammar.{IsGrammar, max_parts};
ghost use Rattle.peg_grammar.specs.Names.{names_in};
ghost use Rattle.peg_grammar.specs.Refusal.{IsRefusedBy};
ghost use Rattle.peg_semantics.specs.Rules.{names as names_of, name_of, weight_of};
ghost use Rattle.peg_grammar.specs.Written.{form_of, rules_of};

use crate::cut_counts::cut_definitions;
use crate::name_key::NameKey;
use crate::names::{checked_names, name_number};
use crate::{Definition, Expr, GrammarFault, weight};
use indexmap::IndexSet;
use peg_bytes::Span;
use std::alloc::Global;

/// The maximum weight of a grammar: the number of rules, of expressions and of bytes in literals.
pub const MAX_PARTS: u64 = 4_194_304;

/// A grammar (Ford 2004, section 3.1): at least one rule, distinct names, a rule for each name referred to, and counts
/// in range. Rules are numbered from 0 in written order.
#[derive(Debug, Drop)]
pub struct Grammar {
    names: IndexSet<String, NameKey>,
    definitions: Vec<Definition>,
    ghost named: { names_in names ≡ names_of (rules_of definitions.items) },
    pub ghost grammar: { ∥ IsGrammar (rules_of definitions.items) ∥₁ },
    pub ghost light: { weight_of (rules_of definitions.items) ≤ max_parts },
}

impl Grammar {
    ghost use Rattle.peg_grammar.specs.GrammarRules.{rules_in};

    /// Creates a grammar from definitions, or returns the first variant of `GrammarFault` that applies to them. Returns
    /// `Memory` if an allocation fails before the definitions are checked. Linear in the weight, except for hashing.
    pub fn new(alloc: Global, definitions: Vec<Definition>) -> Result<Grammar, GrammarFault>
        ensures rules { IfOk result (λ g. rules_in g ≡ rules_of definitions.items) }
        ensures grammar { OnOk result (IsGrammar (rules_of definitions.items)) }
        ensures light { OnOk result (weight_of (rules_of definitions.items) ≤ max_parts) }
        ensures refused { IfErr result (IsRefusedBy (rules_of definitions.items)) }
    {
        let names = checked_names(alloc, &definitions)?;
        if weight(&definitions) > MAX_PARTS {
            return Err(GrammarFault::TooManyParts);
        }
        Ok(Grammar { names, definitions })
    }

    /// Returns the number of rules, which is at least 1. Constant time.
    pub fn rules(&self) -> u32
        ensures count { result ≡ length (rules_in self.now) }
        ensures some { 0 < result }
        ensures most { result ≤ max_parts }
    {
        self.definitions.len() as u32
    }

    /// Returns the number of the rule with the given name, if there is one. Linear in the length of the name, except
    /// for hashing; allocates nothing.
    pub fn rule_number(&self, name: &str) -> Option<u32>
        ensures { result ≡ position (bytes_eq name.now) (names_of (rules_in self.now)) }
    {
        let number = name_number(&self.names, name)?;
        Some(number as u32)
    }

    /// Returns the name of rule number `rule`. Constant time.
    pub fn rule_name(&self, rule: u32) -> &str
        requires { rule < length (rules_in self.now) }
        ensures { result.now ≡ name_of (rules_in self.now) rule }
    {
        self.definitions[rule as usize].name.as_str()
    }

    /// Returns the span of the name of rule number `rule` in the file, where the rule is defined. Constant time.
    pub fn name_span(&self, rule: u32) -> Span
        requires { rule < length (rules_in self.now) }
        ensures { option_map (λ r. r.span) (slice_get (rules_in self.now) rule) ≡ Some (extent result) }
    {
        self.definitions[rule as usize].span
    }

    /// Returns the expression of rule number `rule`. Constant time.
    pub fn body(&self, rule: u32) -> &Expr
        requires { rule < length (rules_in self.now) }
        ensures { option_map (λ r. r.body) (slice_get (rules_in self.now) rule) ≡ Some (form_of result.now) }
    {
        &self.definitions[rule as usize].body
    }

    /// Returns the grammar with each number of its counts cut to at most 1. The result has the same names and weight,
    /// the same abstract outcomes, and the same empty loops and left cycles. Linear in the weight; allocates nothing.
    pub fn with_cut_counts(self) -> Grammar
        ensures { rules_in result ≡ cut_rules (rules_in self) }
    {
        let Grammar { names, definitions } = self;
        let definitions = cut_definitions(definitions);
        Grammar { names, definitions }
    }

    pub(crate) fn definitions(&self) -> &[Definition]
        ensures { rules_of result.now ≡ rules_in self.now }
    {
        self.definitions.as_slice()
    }
}
