//! The line of the profile of a parse.
ghost use Rattle.std.specs.Prelude.{◌≡◌, ℕ, List, length, IfOk};
ghost use Rattle.peg_grammar.specs.GrammarRules.{rules_in};
ghost use Rattle.peg_semantics.specs.Rules.{names};
ghost use Rattle.peg_json.specs.Lines.{IsReply, line_bytes};
ghost use Rattle.peg_json.specs.ProfileText.{end_of};
ghost use Rattle.peg_json.specs.Reply.{Profiled};
ghost use Rattle.peg_json.specs.Statuses.{status_code};

use crate::line::Line;
use crate::profile_end::ProfileEnd;
use crate::profile_text::profile_json;
use peg_grammar::Grammar;
use peg_profile::Profile;
use std::alloc::{AllocError, Global};

/// Returns the line of the profile of a parse that has ended or was stopped. It has the profile of each rule of the
/// grammar.
pub fn profile_line(alloc: Global, grammar: &Grammar, profile: &Profile) -> Result<Line, AllocError>
    requires { length profile.now.rules.items ≡ length (rules_in grammar.now) }
    ensures { (file : List ℕ) → IfOk result (λ line. IsReply file
        (Profiled (end_of profile.now.answer) profile.now.steps (names (rules_in grammar.now)) profile.now.rules.items)
        (line_bytes line) (status_code line.status)) }
{
    let text = profile_json(alloc, grammar, profile)?;
    Ok(Line::new(text, ProfileEnd::of(profile).status()))
}
