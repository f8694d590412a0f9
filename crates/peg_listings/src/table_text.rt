//! The table of outcomes as JSON.
ghost use Rattle.std.specs.Prelude.{◌≡◌, IfOk, OnOk, length, string_bytes};
ghost use Rattle.serde_json.specs.Data.{array};
ghost use Rattle.serde_json.specs.Events.{SendsValue};
ghost use Rattle.serde_json.specs.View.{items_of};
ghost use Rattle.serde_json.specs.Written.{compact_text};
ghost use Rattle.peg_check.specs.Cans.{can_of};
ghost use Rattle.peg_check.specs.Exact.{cans_of};
ghost use Rattle.peg_grammar.specs.GrammarRules.{rules_in};
ghost use Rattle.peg_semantics.specs.Rules.{names};
ghost use Rattle.peg_listings.specs.TableText.{entries_data, entry_data, table_data};

use crate::text::text_of;
use peg_check::{Can, Table};
use peg_core::Core;
use peg_grammar::Grammar;
use peg_tree::serialize_member;
use serde::{Described, Serialize, Serializer};
use std::alloc::{AllocError, Global};

/// Returns the table of a grammar's rules as one line of JSON without its line end. Each entry says whether the rule's
/// expression can match the empty string, match a byte or more, and fail (Ford 2004, section 3.5).
///
/// `table` is the table of the grammar's core forms. Linear in the number of rules and the length of their names.
pub fn table_json(
    alloc: Global,
    grammar: &Grammar,
    core: &Core,
    table: &Table,
) -> Result<String, AllocError>
    requires rules { length core.now.bodies ≡ length (rules_in grammar.now) }
    requires entries { length table.now ≡ length core.now.forms }
    ensures { IfOk result (λ text. string_bytes text
        ≡ compact_text (table_data (names (rules_in grammar.now)) (cans_of core.now.bodies table.now))) }
{
    text_of(
        alloc,
        &TableObject {
            grammar,
            core,
            table,
        },
    )
}

// A table, serialized as the entries of its rules.
#[derive(Drop)]
struct TableObject<'a> {
    grammar: &'a Grammar,
    core: &'a Core,
    table: &'a Table,
    ghost rules: { length core.now.bodies ≡ length (rules_in grammar.now) },
    ghost entries: { length table.now ≡ length core.now.forms },
}

impl Described for TableObject<'_> {
    ghost writes = { λ value. SendsValue (table_data (names (rules_in value.grammar.now))
        (cans_of value.core.now.bodies value.table.now)) };
}

impl Serialize for TableObject<'_> {
    fn serialize<S: Serializer>(&self, out: &mut S) -> Result<(), S::Error> {
        out.begin_map(Some(1))?;
        out.key("table")?;
        serialize_entries(self.grammar, self.core, self.table, out)?;
        out.end_map()
    }
}

// Serializes the entries, in order.
fn serialize_entries<S: Serializer>(
    grammar: &Grammar,
    core: &Core,
    table: &Table,
    out: &mut S,
) -> Result<(), S::Error>
    requires rules { length core.now.bodies ≡ length (rules_in grammar.now) }
    requires entries { length table.now ≡ length core.now.forms }
    ensures { OnOk result (SendsValue
        (array (items_of (entries_data (names (rules_in grammar.now)) (cans_of core.now.bodies table.now))))
        (S.written out.old) (S.written out.new)) }
{
    out.begin_seq(Some(grammar.rules() as usize))?;
    for rule in 0..grammar.rules() {
        let can = table.of(core.body(rule));
        serialize_entry(grammar.rule_name(rule), can, out)?;
    }
    out.end_seq()
}

// Serializes the name of a rule and what its expression can do.
fn serialize_entry<S: Serializer>(rule: &str, can: Can, out: &mut S) -> Result<(), S::Error>
    ensures { OnOk result (SendsValue (entry_data rule.now (can_of can)) (S.written out.old) (S.written out.new)) }
{
    out.begin_map(Some(4))?;
    serialize_member("fails", &can.fails, out)?;
    serialize_member("nothing", &can.nothing, out)?;
    serialize_member("rule", &rule, out)?;
    serialize_member("something", &can.something, out)?;
    out.end_map()
}
