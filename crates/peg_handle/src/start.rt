//! The start of a parse, and its step limit.
ghost use Rattle.std.specs.Prelude.{◌≡◌, ◌≢◌, ℕ, ◌<◌, List, IfErr, IfOk, IfSome, None, Some, length, option_map, true};
ghost use Rattle.std.specs.Prelude.{bytes_eq, position};
ghost use Rattle.peg_grammar.specs.GrammarRules.{rules_in};
ghost use Rattle.peg_handle.specs.Starts.{start_of_bytes, step_limit};
ghost use Rattle.peg_json.specs.Lints.{start_number};
ghost use Rattle.peg_semantics.specs.Rules.{is_defined, name_of, names};
ghost use Rattle.peg_semantics.specs.Starts.{start_name};

use peg_grammar::Grammar;
use peg_parser::ParseFault;

// Returns the start that bytes name: `None`, the grammar's first rule, for no bytes. Bytes that are no rule's name are
// `NoSuchStart`, whether or not they are UTF-8.
pub(crate) fn start_from<'a>(
    grammar: &'a Grammar,
    start: &[u8],
) -> Result<Option<&'a str>, ParseFault>
    ensures named { IfOk result (λ named. option_map (λ name. name.now) named ≡ start_of_bytes start.now) }
    ensures fault { IfErr result (λ fault. fault ≡ ParseFault.NoSuchStart) }
    ensures none { IfErr result (λ _. start_name (rules_in grammar.now) (start_of_bytes start.now) ≡ None) }
    ensures some { IfOk result (λ _. (from : List ℕ)
        × (start_name (rules_in grammar.now) (start_of_bytes start.now) ≡ Some from)) }
{
    if start.is_empty() {
        return Ok(None);
    }
    match rule_named(grammar, start) {
        Some(name) => Ok(Some(name)),
        None => Err(ParseFault::NoSuchStart),
    }
}

// Returns the name of the rule whose name has these bytes. Linear in the number of rules.
fn rule_named<'a>(grammar: &'a Grammar, name: &[u8]) -> Option<&'a str>
    ensures found { IfSome result (λ found. found.now ≡ name.now) }
    ensures defined { IfSome result (λ _. is_defined (rules_in grammar.now) name.now ≡ true) }
    ensures none { result ≡ None → (rule : ℕ) → rule < length (rules_in grammar.now)
        → name_of (rules_in grammar.now) rule ≢ name.now }
{
    'rules: for rule in 0..grammar.rules() {
        let found = grammar.rule_name(rule);
        if found.as_bytes() == name {
            return Some(found);
        }
    }
    None
}

// Returns the number of the rule whose name has these bytes. Linear in the number of rules.
pub(crate) fn number_named(grammar: &Grammar, name: &[u8]) -> Option<u32>
    ensures { result ≡ position (bytes_eq name.now) (names (rules_in grammar.now)) }
{
    match rule_named(grammar, name) {
        Some(found) => grammar.rule_number(found),
        None => None,
    }
}

// Returns the number of the start rule that bytes name: that of the first rule for no bytes.
pub(crate) fn start_rule(grammar: &Grammar, start: &[u8]) -> Option<u32>
    ensures number { result ≡ start_number (rules_in grammar.now) (start_of_bytes start.now) }
    ensures within { IfSome result (λ rule. rule < length (rules_in grammar.now)) }
{
    if start.is_empty() {
        // A grammar has at least one rule, so rule 0 is one.
        let _count = grammar.rules();
        Some(0)
    } else {
        number_named(grammar, start)
    }
}

// Returns the step limit that a number sets: none for 0.
pub(crate) fn limit_from(steps: u64) -> Option<u64>
    ensures { result ≡ step_limit steps }
{
    if steps == 0 { None } else { Some(steps) }
}
