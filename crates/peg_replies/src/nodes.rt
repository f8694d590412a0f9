//! The nodes of a tree that are printed.
ghost use Rattle.std.specs.Prelude.{◌≡◌, ◌<◌, ◌&&◌, ◌||◌, ℕ, IfOk, bytes_eq, find, length, not, option_map};
ghost use Rattle.peg_grammar.specs.GrammarRules.{rules_in};
ghost use Rattle.peg_semantics.specs.Rules.{is_defined, name_of};
ghost use Rattle.peg_tree.specs.Selected.{has_rule};
ghost use Rattle.peg_replies.specs.PrintedNodes.{is_listed, names_listed};

use peg_grammar::Grammar;
use peg_tree::RuleSet;
use std::alloc::{AllocError, Global};

/// Which nodes of a tree are printed. The root is printed in any case. A list of rules has their names, with commas
/// between them.
#[derive(Clone, Copy, Debug, PartialEq, Eq)]
pub enum Nodes<'a> {
    /// Prints all nodes.
    All,
    /// Prints the nodes of the listed rules. The children of an omitted node take its place.
    Show(&'a str),
    /// Prints all nodes but those of the listed rules. The children of an omitted node take its place.
    Hide(&'a str),
}

impl<'a> Nodes<'a> {
    ghost use Rattle.peg_replies.specs.Commands.{nodes_asked};
    ghost use Rattle.peg_replies.specs.PrintedNodes.{first_unknown, nodes_from_options};

    /// Returns `Show` for a list of shown rules, `Hide` for a list of hidden rules, and `All` without lists. `Show`
    /// prevails. Constant time.
    pub fn from_options(show: Option<&'a str>, hide: Option<&'a str>) -> Nodes<'a>
        ensures { nodes_asked result ≡ nodes_from_options (option_map (λ list. list.now) show.entry)
            (option_map (λ list. list.now) hide.entry) }
    {
        match (show, hide) {
            (Some(list), _) => Nodes::Show(list),
            (None, Some(list)) => Nodes::Hide(list),
            (None, None) => Nodes::All,
        }
    }

    /// Returns the first listed name, in written order, that no rule has. Linear in the list, except for hashing;
    /// allocates nothing.
    pub(crate) fn first_unknown(self, grammar: &Grammar) -> Option<&'a str>
        ensures { option_map (λ name. name.now) result ≡ first_unknown (rules_in grammar.now) (nodes_asked self.entry) }
    {
        match self {
            Nodes::All => None,
            Nodes::Show(list) | Nodes::Hide(list) => unknown_in(grammar, list),
        }
    }
}

// The first name of a list that no rule has.
fn unknown_in<'a>(grammar: &Grammar, list: &'a str) -> Option<&'a str>
    ensures { option_map (λ name. name.now) result
        ≡ find (λ name. not (is_defined (rules_in grammar.now) name)) (names_listed list.now) }
{
    'names: for name in list.split(',') {
        if grammar.rule_number(name).is_none() {
            return Some(name);
        }
    }
    None
}

/// Returns the set of the listed rules. A name that no rule has adds none. Linear in the list and the number of rules,
/// except for hashing. The only error is a failed allocation.
pub(crate) fn listed_rules(
    alloc: Global,
    grammar: &Grammar,
    list: &str,
) -> Result<RuleSet, AllocError>
    ensures { IfOk result (λ set. (rule : ℕ) → rule < length (rules_in grammar.now)
        → has_rule set rule ≡ is_listed (rules_in grammar.now) (names_listed list.now) rule) }
{
    let mut set = RuleSet::none(alloc, grammar.rules())?;
    'names: for name in list.split(',') {
        add_named(&mut set, grammar, name);
    }
    Ok(set)
}

/// Returns the set of the rules that aren't listed. Costs and fails as `listed_rules`.
pub(crate) fn other_rules(
    alloc: Global,
    grammar: &Grammar,
    list: &str,
) -> Result<RuleSet, AllocError>
    ensures { IfOk result (λ set. (rule : ℕ) → rule < length (rules_in grammar.now)
        → has_rule set rule ≡ not (is_listed (rules_in grammar.now) (names_listed list.now) rule)) }
{
    let mut set = RuleSet::all(alloc, grammar.rules())?;
    'names: for name in list.split(',') {
        remove_named(&mut set, grammar, name);
    }
    Ok(set)
}

// Adds the rule of this name, if there is one, to a set.
fn add_named(set: &mut RuleSet, grammar: &Grammar, name: &str)
    requires { length set.old ≡ length (rules_in grammar.now) }
    ensures count { length set.new ≡ length set.old }
    ensures added { (rule : ℕ) → rule < length (rules_in grammar.now) → has_rule set.new rule
        ≡ (bytes_eq (name_of (rules_in grammar.now) rule) name.now || has_rule set.old rule) }
{
    if let Some(rule) = grammar.rule_number(name) {
        set.insert(rule);
    }
}

// Removes the rule of this name, if there is one, from a set.
fn remove_named(set: &mut RuleSet, grammar: &Grammar, name: &str)
    requires { length set.old ≡ length (rules_in grammar.now) }
    ensures count { length set.new ≡ length set.old }
    ensures removed { (rule : ℕ) → rule < length (rules_in grammar.now) → has_rule set.new rule
        ≡ (not (bytes_eq (name_of (rules_in grammar.now) rule) name.now) && has_rule set.old rule) }
{
    if let Some(rule) = grammar.rule_number(name) {
        set.remove(rule);
    }
}
