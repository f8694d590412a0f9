//! The profile of a parse.
ghost use Rattle.std.specs.Prelude.{◌≡◌, ◌<◌, ◌≤◌, ℕ, IfNone, IfOk, IfSome, IsErrOf, None, OnOk, Some, length};
ghost use Rattle.peg_grammar.specs.Limits.{max_text_bytes};
ghost use Rattle.peg_semantics.specs.Starts.{start_name};
ghost use Rattle.peg_parser.specs.ParseContract.{HasParseFaults};
ghost use Rattle.peg_parser.specs.Engine.{rules_shown, shown_parser_rules};
ghost use Rattle.peg_parser.specs.Parser.{start_named};
ghost use Rattle.peg_parser.specs.SelectedOutcomes.{IsParseOutcomeBy};
ghost use Rattle.peg_parser.specs.StepLimits.{TakesMoreSteps, TakesPlainSteps};
ghost use Rattle.peg_machine.specs.CoreOutcome.{saturated};
ghost use Rattle.peg_profile.specs.Profiles.{AreProfilesOfParse, AreProfilesSoFar};

use crate::counts::{CallCounts, RuleProfile};
use peg_machine::Answer;
use peg_parser::{ParseFault, ParseOptions, ShownParser};
use std::alloc::Global;

/// The profile of each rule of the grammar, and the answer of the parse if it has ended.
#[derive(Debug, Drop)]
pub struct Profile {
    /// The answer; `None` if the step limit stopped the parse.
    pub answer: Option<Answer>,
    /// The number of steps made, at most `u64::MAX`.
    pub steps: u64,
    /// The profile of each rule, in order.
    pub rules: Vec<RuleProfile>,
}

impl Profile {
    /// Parses a prefix of a text as `ShownParser::parse` does, but in one run. Counts the calls of each rule whose
    /// bodies ran. The parser need not show any rule.
    ///
    /// The positions of a rule's calls are those of its calls in Ford's record of the text (Ford 2004, section 3.3),
    /// whatever the memo. Without a memo the calls are those of the record, each counted as often as it is made. With a
    /// memo the steps of the parse are those of the bodies that are counted, and one more for the end of a match. A
    /// body that runs again at a position is work that a memo can save (Ford 2002).
    ///
    /// If the parse takes more steps than the limit allows, it is stopped there, and the profile has the calls made so
    /// far. They are calls of the record, and without a memo its first ones. The other errors are those of
    /// `Parser::parse`.
    ///
    /// Takes the memory of a `CallCounts`, besides what the parse takes.
    ///
    /// # Example
    ///
    /// ```
    /// let options = ParseOptions { start: None, memo: 0, steps: None };
    /// let parser = parser.showing(Some(RuleSet::none(alloc, 1)?));
    /// let profile = Profile::of_text(alloc, &parser, b"aab", &options)?;
    /// println!("{} calls at {} positions", profile.rules[0].calls, profile.rules[0].places);
    /// ```
    pub fn of_text(
        alloc: Global,
        parser: &ShownParser,
        text: &[u8],
        options: &ParseOptions<'_>,
    ) -> Result<Profile, ParseFault>
        ensures faults { HasParseFaults (shown_parser_rules parser.now) text.now (start_named options.now) result }
        ensures short { OnOk result (length text.now ≤ max_text_bytes) }
        ensures unlimited { ¬ IsErrOf result ParseFault.StepLimit }
        ensures count { IfOk result (λ profile. length profile.rules.items ≡ length (shown_parser_rules parser.now)) }

        // A parse that has ended.
        ensures outcome { IfOk result (λ profile. IfSome profile.answer (λ answer.
            IfSome (start_name (shown_parser_rules parser.now) (start_named options.now))
            (λ start. IsParseOutcomeBy (rules_shown parser.now) None (shown_parser_rules parser.now) text.now start
            answer.outcome))) }
        ensures rules { IfOk result (λ profile. IfSome profile.answer (λ answer.
            IfSome (start_name (shown_parser_rules parser.now) (start_named options.now)) (λ start.
            AreProfilesOfParse (shown_parser_rules parser.now) text.now start options.now.memo answer.outcome.result
            profile.steps profile.rules.items))) }
        ensures enough { options.now.memo ≡ 0 → IfOk result (λ profile. IfSome profile.answer (λ answer.
            ¬ TakesMoreSteps (shown_parser_rules parser.now) text.now (start_named options.now) options.now.steps)) }
        ensures exact { options.now.memo ≡ 0 → IfOk result (λ profile. IfSome profile.answer (λ answer. (count : ℕ)
            × TakesPlainSteps (shown_parser_rules parser.now) text.now (start_named options.now) count
            × (profile.steps ≡ saturated count))) }

        // A parse that was stopped.
        ensures stopped { IfOk result (λ profile. IfNone profile.answer (
            IfSome (start_name (shown_parser_rules parser.now) (start_named options.now)) (λ start.
            AreProfilesSoFar (shown_parser_rules parser.now) text.now start options.now.memo options.now.steps
            profile.rules.items))) }
        ensures limited { IfOk result (λ profile. IfNone profile.answer (
            TakesMoreSteps (shown_parser_rules parser.now) text.now (start_named options.now) options.now.steps)) }
        ensures limit { IfOk result (λ profile. IfNone profile.answer (options.now.steps ≡ Some profile.steps)) }

        // Any parse.
        ensures allowed { IfOk result (λ profile. (limit : ℕ) → options.now.steps ≡ Some limit
            → profile.steps ≤ limit) }
        ensures steps { IfOk result (λ profile. (count : ℕ) × TakesPlainSteps (shown_parser_rules parser.now) text.now
            (start_named options.now) count × (profile.steps ≤ count)) }
    {
        let count = parser.grammar().rules();
        let mut calls = CallCounts::new(alloc);
        match parser.trace(alloc, text, options, &mut calls) {
            Ok(answer) => {
                let rules = calls.profiles(alloc, count)?;
                Ok(Profile {
                    steps: answer.steps,
                    answer: Some(answer),
                    rules,
                })
            }
            Err(ParseFault::StepLimit) => Ok(Profile {
                steps: options.steps.unwrap_or(0),
                answer: None,
                rules: calls.profiles(alloc, count)?,
            }),
            Err(fault) => Err(fault),
        }
    }
}
