//! The names of a grammar's rules.
ghost use Rattle.std.specs.Prelude.{◌≡◌, ℕ, ◌≤◌, ◌<◌, length, min, slice_get};
ghost use Rattle.peg_parser.specs.Parser.{parser_rules};
ghost use Rattle.peg_semantics.specs.Rules.{name_of};

use crate::buffers::copy_text;
use peg_parser::Parser;

/// Copies the start of a rule's name to `out`, as much as fits, and returns the length of the whole name. The length is
/// 0 if there is no rule with this number.
pub fn copy_rule_name(parser: &Parser, rule: u32, out: &mut [u8]) -> usize
    ensures length { result ≡ length (name_of (parser_rules parser.now) rule) }
    ensures copied { (place : ℕ) → place < min (length out.old) result
        → slice_get out.new place ≡ slice_get (name_of (parser_rules parser.now) rule) place }
    ensures rest { (place : ℕ) → min (length out.old) result ≤ place
        → slice_get out.new place ≡ slice_get out.old place }
{
    let grammar = parser.grammar();
    let name = if rule < grammar.rules() {
        grammar.rule_name(rule)
    } else {
        ""
    };
    copy_text(name.as_bytes(), out)
}
