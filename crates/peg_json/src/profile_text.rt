//! The profile of a parse as JSON.
ghost use Rattle.std.specs.Prelude.{◌≡◌, ◌-◌, IfOk, OnOk, length, string_bytes};
ghost use Rattle.serde.specs.Event.{Log};
ghost use Rattle.serde_json.specs.Data.{Members, array, no_members, object};
ghost use Rattle.serde_json.specs.Events.{SendsMembers, SendsValue, members_len};
ghost use Rattle.serde_json.specs.View.{items_of};
ghost use Rattle.serde_json.specs.Written.{compact_text};
ghost use Rattle.peg_grammar.specs.GrammarRules.{rules_in};
ghost use Rattle.peg_semantics.specs.Rules.{names};
ghost use Rattle.peg_json.specs.ProfileText.{end_of, profile_data, profile_members, rule_entries_data};
ghost use Rattle.peg_json.specs.ProfileText.{rule_entry_data, with_end};

use crate::profile_end::ProfileEnd;
use peg_grammar::Grammar;
use peg_listings::text_of;
use peg_profile::{Profile, RuleProfile};
use peg_tree::serialize_member;
use serde::{Described, Serialize, Serializer};
use std::alloc::{AllocError, Global};

/// Returns the profile of a parse as one line of JSON without its line end. It has the profile of each rule of the
/// grammar. Linear in the number of rules and the length of their names.
pub fn profile_json(
    alloc: Global,
    grammar: &Grammar,
    profile: &Profile,
) -> Result<String, AllocError>
    requires { length profile.now.rules.items ≡ length (rules_in grammar.now) }
    ensures { IfOk result (λ text. string_bytes text ≡ compact_text (profile_data (end_of profile.now.answer)
        profile.now.steps (names (rules_in grammar.now)) profile.now.rules.items)) }
{
    text_of(
        alloc,
        &ProfileObject {
            grammar,
            end: ProfileEnd::of(profile),
            steps: profile.steps,
            profiles: &profile.rules,
        },
    )
}

// A profile, serialized as the result of the parse and the entries of its rules.
#[derive(Drop)]
struct ProfileObject<'a> {
    grammar: &'a Grammar,
    end: ProfileEnd,
    steps: u64,
    profiles: &'a [RuleProfile],
    ghost count: { length profiles.now ≡ length (rules_in grammar.now) },
}

impl Described for ProfileObject<'_> {
    ghost writes = { λ value. SendsValue
        (profile_data value.end value.steps (names (rules_in value.grammar.now)) value.profiles.now) };
}

impl Serialize for ProfileObject<'_> {
    fn serialize<S: Serializer>(&self, out: &mut S) -> Result<(), S::Error> {
        serialize_profile(self.grammar, self.end, self.steps, self.profiles, out)
    }
}

// Serializes the profile of a parse with this end and this number of steps.
fn serialize_profile<S: Serializer>(
    grammar: &Grammar,
    end: ProfileEnd,
    steps: u64,
    profiles: &[RuleProfile],
    out: &mut S,
) -> Result<(), S::Error>
    requires { length profiles.now ≡ length (rules_in grammar.now) }
    ensures { OnOk result (SendsValue (profile_data end steps (names (rules_in grammar.now)) profiles.now)
        (S.written out.old) (S.written out.new)) }
{
    begin_profile(end, out)?;
    serialize_result(grammar, end, steps, profiles, out)?;
    out.end_map()
}

// Begins the object of a profile, with the number of consumed bytes first if the parse matched.
fn begin_profile<S: Serializer>(end: ProfileEnd, out: &mut S) -> Result<(), S::Error>
    ensures { OnOk result ((rest : Members) (last : Log) → members_len rest ≡ 3
        → SendsMembers rest (S.written out.new) last
        → SendsValue (object (with_end end rest)) (S.written out.old) last) }
{
    match end {
        ProfileEnd::Failed | ProfileEnd::Stopped => out.begin_map(Some(3)),
        ProfileEnd::Matched(end) => {
            out.begin_map(Some(4))?;
            serialize_member("consumed", &end, out)
        }
    }
}

// Serializes the members from the result to the number of steps.
fn serialize_result<S: Serializer>(
    grammar: &Grammar,
    end: ProfileEnd,
    steps: u64,
    profiles: &[RuleProfile],
    out: &mut S,
) -> Result<(), S::Error>
    requires { length profiles.now ≡ length (rules_in grammar.now) }
    ensures { OnOk result ((last : Log) → SendsMembers no_members (S.written out.new) last
        → SendsMembers (profile_members end steps (names (rules_in grammar.now)) profiles.now)
        (S.written out.old) last) }
{
    serialize_member("result", &end.word(), out)?;
    out.key("rules")?;
    serialize_entries(grammar, profiles, out)?;
    serialize_member("steps", &steps, out)
}

// Serializes the entries of the rules, in order.
fn serialize_entries<S: Serializer>(
    grammar: &Grammar,
    profiles: &[RuleProfile],
    out: &mut S,
) -> Result<(), S::Error>
    requires { length profiles.now ≡ length (rules_in grammar.now) }
    ensures { OnOk result (SendsValue
        (array (items_of (rule_entries_data (names (rules_in grammar.now)) profiles.now)))
        (S.written out.old) (S.written out.new)) }
{
    out.begin_seq(Some(grammar.rules() as usize))?;
    for rule in 0..grammar.rules() {
        let profile = profiles[rule as usize];
        serialize_entry(grammar.rule_name(rule), profile, out)?;
    }
    out.end_seq()
}

// Serializes the profile of the rule with this name.
fn serialize_entry<S: Serializer>(
    rule: &str,
    profile: RuleProfile,
    out: &mut S,
) -> Result<(), S::Error>
    ensures { OnOk result (SendsValue (rule_entry_data rule.now profile) (S.written out.old) (S.written out.new)) }
{
    let again = profile.calls.saturating_sub(profile.places);
    out.begin_map(Some(4))?;
    serialize_member("again", &again, out)?;
    serialize_member("calls", &profile.calls, out)?;
    serialize_member("places", &profile.places, out)?;
    serialize_member("rule", &rule, out)?;
    out.end_map()
}
