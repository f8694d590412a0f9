//! What several texts use, one text after the other.
ghost use Rattle.std.specs.Prelude.{◌≡◌, ℕ, ◌≤◌, false, List, IfErr, IfOk, IsErrOf, OnOk, Option, Some, [], length, Bool};
ghost use Rattle.peg_coverage.specs.Covered.{ParseSettings, settings_of};
ghost use Rattle.peg_coverage.specs.CoverageParser.{IsCoverageParserOf, rule_count};
ghost use Rattle.peg_coverage.specs.Unused.{IsCoverageOf};
ghost use Rattle.peg_coverage.specs.declared.text_match.RequiredMatch.{RequiredMatch};
ghost use Rattle.peg_coverage_files.specs.CoveringFaults.{IsFaultOfBytes};
ghost use Rattle.peg_coverage_files.specs.TextEnds.{end_of_parse, ended_by};
ghost use Rattle.peg_grammar.specs.Limits.{max_text_bytes};
ghost use Rattle.peg_parser.specs.Parser.{start_named};
ghost use Rattle.peg_semantics.specs.Rules.{Rule};
ghost use Rattle.peg_semantics.specs.Starts.{start_name};
ghost use Rattle.peg_tree.specs.Selected.{has_rule};

use crate::counts::{TextCounts, TextEnd};
use crate::fault::CoveringFault;
use peg_coverage::{Coverage, CoverageParser, RequiredMatch, TextMatch};
use peg_parser::{ParseFault, ParseOptions};
use peg_tree::RuleSet;
use std::alloc::{AllocError, Global};

/// What texts use so far, and how their parses end.
#[derive(Drop)]
pub(crate) struct CoveredTexts {
    pub(crate) used: RuleSet,
    pub(crate) counts: TextCounts,
}

impl CoveredTexts {
    ghost use Rattle.peg_coverage_files.specs.CoveredTexts.{AddsText, AreCovered, IsFresh, ListsWithin};

    /// Returns what no text uses of the grammar of a parser. The only error is a failed allocation.
    pub(crate) fn new(alloc: Global, parser: &CoverageParser) -> Result<CoveredTexts, AllocError>
        ensures size { IfOk result (λ covered. length covered.used ≡ rule_count parser.now) }
        ensures fresh { IfOk result IsFresh }
    {
        Ok(CoveredTexts {
            used: RuleSet::none(alloc, parser.rules())?,
            counts: TextCounts::new(alloc),
        })
    }

    /// Adds what a text uses, and counts it by how its parse ends. Nothing is promised of the counts after an error.
    pub(crate) fn add<'a>(
        &mut self,
        alloc: Global,
        parser: &CoverageParser,
        text: &[u8],
        options: &ParseOptions<'_>,
        needed: RequiredMatch,
    ) -> Result<(), CoveringFault<'a>>
        requires { length self.old.used ≡ rule_count parser.now }
        ensures adds { (rules : List Rule) (start : List ℕ) → IsCoverageParserOf rules parser.now
            → start_name rules (start_named options.now) ≡ Some start
            → OnOk result (AddsText rules start (settings_of options.now) needed (Some text.now) self.old self.new) }
        ensures short { (rules : List Rule) → IsCoverageParserOf rules parser.now
            → OnOk result (length text.now ≤ max_text_bytes) }
        ensures size { length self.new.used ≡ length self.old.used }
        ensures refused { (rules : List Rule) → IsCoverageParserOf rules parser.now
            → IfErr result (IsFaultOfBytes rules text.now (start_named options.now)) }
        ensures input { ¬ IsErrOf result CoveringFault.Input }
    {
        let covered = parser.cover(alloc, text, options, &mut self.used);
        let end = to_end(needed, covered)?;
        self.counts.count(end)?;
        Ok(())
    }

    /// Returns what the texts use. The only error is a failed allocation.
    pub(crate) fn coverage(
        self,
        alloc: Global,
        parser: &CoverageParser,
    ) -> Result<Coverage, AllocError>
        ensures within { (rules : List Rule) → IsCoverageParserOf rules parser.now → IfOk result (ListsWithin rules) }
        ensures covered { (rules : List Rule) (start : List ℕ) (settings : ParseSettings) (needed : RequiredMatch)
            (texts : List (Option (List ℕ))) (before : List Bool) → IsCoverageParserOf rules parser.now
            → ((rule : ℕ) → has_rule before rule ≡ false)
            → AreCovered rules start settings needed texts before self
            → IfOk result (IsCoverageOf rules start settings needed texts) }
    {
        let CoveredTexts { used, counts } = self;
        Ok(Coverage {
            texts: counts.texts,
            matched: counts.matched,
            stopped: counts.stopped,
            unused_rules: parser.unused_rules(alloc, &used)?,
            unused_alternatives: parser.unused_alternatives(alloc, &used)?,
        })
    }
}

// How a parse has ended, or why there is none.
fn to_end<'a>(
    needed: RequiredMatch,
    covered: Result<TextMatch, ParseFault>,
) -> Result<TextEnd, CoveringFault<'a>>
    ensures value { result ≡ end_of_parse needed covered }
    ensures input { ¬ IsErrOf result CoveringFault.Input }
{
    match covered {
        Ok(found) => Ok(match_end(needed.allows(found))),
        Err(ParseFault::StepLimit) => Ok(TextEnd::Stopped),
        Err(ParseFault::NoSuchStart) => Err(CoveringFault::NoSuchStart),
        Err(ParseFault::TextTooLong) => Err(CoveringFault::TextTooLong),
        Err(ParseFault::Memory) => Err(CoveringFault::Memory),
    }
}

// How a parse with a result ends.
fn match_end(is_enough: bool) -> TextEnd
    ensures { result ≡ ended_by is_enough }
{
    if is_enough {
        TextEnd::Matched
    } else {
        TextEnd::Failed
    }
}
