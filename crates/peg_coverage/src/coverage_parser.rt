//! Parsers that note which rules and alternatives a text uses.
ghost use Rattle.std.specs.Prelude.{◌≡◌, ◌<◌, ◌+◌, ◌*◌, List, IfErr, IfOk, IfSome, None, OnErr, OnOk};
ghost use Rattle.std.specs.Prelude.{Some, is_some, length, map};
ghost use Rattle.peg_bytes.specs.Extent.{extent};
ghost use Rattle.peg_coverage.specs.Covered.{HasCovered, has_noted};
ghost use Rattle.peg_coverage.specs.CoverageFaults.{IsCoverageRefusal, IsParserRefusal};
ghost use Rattle.peg_coverage.specs.Steps.{IsWithinSteps};
ghost use Rattle.peg_diagnostics.specs.Marked.{extents_of_alternatives, marked_rules};
ghost use Rattle.peg_grammar.specs.GrammarRules.{rules_in};
ghost use Rattle.peg_semantics.specs.WellFormed.{IsWellFormedGrammar};
ghost use Rattle.peg_parser.specs.ParseContract.{HasParseFaults, HasStepLimit};
ghost use Rattle.peg_parser.specs.Engine.{shown_parser_rules};
ghost use Rattle.peg_parser.specs.Parser.{parser_rules, start_named};
ghost use Rattle.peg_semantics.specs.Rules.{Rule};
ghost use Rattle.peg_semantics.specs.Starts.{start_name};

use crate::coverage::{UnusedAlternative, UnusedRule};
use crate::fault::CoverageFault;
use crate::text_match::TextMatch;
use crate::tracing::trace_text;
use peg_bytes::Span;
use peg_diagnostics::{alternative_spans, marked_grammar};
use peg_grammar::{Grammar, MAX_TEXT_BYTES};
use peg_parser::{ParseFault, ParseOptions, Parser, Refusal, ShownParser};
use peg_tree::RuleSet;
use std::alloc::{AllocError, Global};

/// The parser of a grammar's marked grammar. It parses as the grammar does. It calls markers, too: rules of their own,
/// whose calls show what is tried and what matches.
#[derive(Drop)]
pub struct CoverageParser {
    parser: ShownParser,
    // The number of the grammar's own rules. Those of markers come after them.
    own_rules: u32,
    alternatives: Vec<Span>,
    ghost count: { own_rules + (2 * length alternatives.items + own_rules) ≡ length (shown_parser_rules parser) },
}

impl CoverageParser {
    ghost use Rattle.peg_coverage.specs.CoverageParser.{IsCoverageParserOf, rule_count};
    ghost use Rattle.peg_coverage.specs.Unused.{alternative_use, rule_use, unused_alternatives, unused_rules};

    /// Returns the parser of coverage for the grammar of a parser, or why it has none. It has one if three things hold.
    /// No name of a rule contains `!`. The marked grammar and its code are within the limits. No allocation fails.
    ///
    /// # Example
    ///
    /// ```
    /// let coverage = CoverageParser::new(alloc, &parser)?;
    /// println!("{} alternatives", coverage.alternatives().len());
    /// ```
    pub fn new(alloc: Global, parser: &Parser) -> Result<CoverageParser, CoverageFault>
        ensures made { IfOk result (IsCoverageParserOf (parser_rules parser.now)) }
        ensures refused { IfErr result (IsCoverageRefusal (parser_rules parser.now)) }
    {
        CoverageParser::of_grammar(alloc, parser.grammar())
    }

    // The parser of coverage for a well-formed grammar.
    fn of_grammar(alloc: Global, grammar: &Grammar) -> Result<CoverageParser, CoverageFault>
        requires { ∥ IsWellFormedGrammar (rules_in grammar.now) ∥₁ }
        ensures made { IfOk result (IsCoverageParserOf (rules_in grammar.now)) }
        ensures refused { IfErr result (IsCoverageRefusal (rules_in grammar.now)) }
    {
        let marked = marked_grammar(alloc, grammar)?;
        let parser = marked_parser(alloc, marked)?;
        let alternatives = alternative_spans(alloc, grammar)?;
        Ok(CoverageParser {
            parser,
            own_rules: grammar.rules(),
            alternatives,
        })
    }

    /// Returns the span of each alternative in the grammar file, in written order: an alternative before those inside
    /// it. Constant time.
    pub fn alternatives(&self) -> &[Span]
        ensures { (rules : List Rule) → IsCoverageParserOf rules self.now
            → map extent result.now ≡ extents_of_alternatives rules }
    {
        self.alternatives.as_slice()
    }

    /// Returns the number of rules of the marked grammar: the rules, two markers for each alternative, and one for each
    /// rule. Constant time.
    pub fn rules(&self) -> u32
        ensures count { result ≡ rule_count self.now }
        ensures number { (rules : List Rule) → IsCoverageParserOf rules self.now → result ≡ length (marked_rules rules) }
    {
        self.parser.grammar().rules()
    }

    /// Returns whether the grammar has the start rule of these options: a rule with its name, if one is given. Linear
    /// in the length of the name, except for hashing.
    pub fn has_start(&self, options: &ParseOptions<'_>) -> bool
        ensures { (rules : List Rule) → IsCoverageParserOf rules self.now
            → result ≡ is_some (start_name rules (start_named options.now)) }
    {
        match options.start {
            None => true,
            Some(name) => match self.parser.grammar().rule_number(name) {
                Some(rule) => rule < self.own_rules,
                None => false,
            },
        }
    }

    /// Parses a prefix of a text, and adds to a set what is tried and what matches, in predicates too. These are the
    /// attempts on the way to Ford's record of the text for the grammar as written (Ford 2004, section 3.3). The set
    /// has the rules of the marked grammar whose calls show them, so it must be one for `rules` rules.
    ///
    /// Returns how much of the text matches. The errors are those of `Parser::parse`, and the set is then as it was.
    /// The steps are those of the marked grammar. With a memo, the parse runs without it first, as `Parser::parse`
    /// does.
    ///
    /// Takes a byte of memory for each rule of the marked grammar, besides what the parse takes.
    ///
    /// # Example
    ///
    /// ```
    /// // The grammar `S <- &('a' / 'b') .`
    /// let mut used = RuleSet::none(alloc, coverage.rules())?;
    /// let found = coverage.cover(alloc, b"b", &options, &mut used)?;
    /// let unused = coverage.unused_alternatives(alloc, &used)?;
    /// assert_eq!((found, unused.len(), unused[0].tried), (TextMatch::Whole, 1, true));
    /// ```
    pub fn cover(
        &self,
        alloc: Global,
        text: &[u8],
        options: &ParseOptions<'_>,
        used: &mut RuleSet,
    ) -> Result<TextMatch, ParseFault>
        requires { length used.old ≡ rule_count self.now }
        ensures faults { (rules : List Rule) → IsCoverageParserOf rules self.now
            → HasParseFaults rules text.now (start_named options.now) result }
        ensures covered { (rules : List Rule) → IsCoverageParserOf rules self.now → IfOk result (λ found.
            IfSome (start_name rules (start_named options.now))
            (λ start. HasCovered rules text.now start used.old used.new found)) }
        ensures count { length used.new ≡ length used.old }
        ensures unchanged { OnErr result (used.new ≡ used.old) }
        ensures limit { (rules : List Rule) → IsCoverageParserOf rules self.now
            → HasStepLimit (marked_rules rules) text.now (start_named options.now) (options.now.memo ≡ 0)
            options.now.steps result }
        ensures within { (rules : List Rule) → IsCoverageParserOf rules self.now → OnOk result
            (IfSome (start_name rules (start_named options.now))
            (λ start. IsWithinSteps (marked_rules rules) text.now start options.now.steps)) }
    {
        if !self.has_start(options) {
            return Err(ParseFault::NoSuchStart);
        }
        if text.len() > MAX_TEXT_BYTES {
            return Err(ParseFault::TextTooLong);
        }
        match trace_text(alloc, &self.parser, text, options) {
            Ok(traced) => {
                traced.called.add_to(self.rules(), used);
                Ok(traced.found)
            }
            Err(fault) => Err(fault),
        }
    }

    /// Returns the grammar's rules that match in no text, by the attempts in a set, in ascending order. Linear in the
    /// number of rules. The only error is a failed allocation.
    pub fn unused_rules(&self, alloc: Global, used: &RuleSet) -> Result<Vec<UnusedRule>, AllocError>
        ensures { (rules : List Rule) → IsCoverageParserOf rules self.now
            → IfOk result (λ unused. map rule_use unused.items ≡ unused_rules rules (has_noted rules used.now)) }
    {
        let first = self.own_rules + 2 * self.alternatives.len() as u32;
        let mut unused = Vec::new(alloc);
        'rules: for rule in 0..self.own_rules {
            if !used.contains(first + rule) {
                unused.push(UnusedRule {
                    rule,
                    tried: used.contains(rule),
                })?;
            }
        }
        Ok(unused)
    }

    /// Returns the alternatives that match in no text, by the attempts in a set, in written order. Linear in the number
    /// of alternatives. The only error is a failed allocation.
    pub fn unused_alternatives(
        &self,
        alloc: Global,
        used: &RuleSet,
    ) -> Result<Vec<UnusedAlternative>, AllocError>
        ensures { (rules : List Rule) → IsCoverageParserOf rules self.now
            → IfOk result (λ unused. map alternative_use unused.items
            ≡ unused_alternatives rules (has_noted rules used.now)) }
    {
        let mut unused = Vec::new(alloc);
        'alternatives: for number in 0..self.alternatives.len() as u32 {
            let first = self.own_rules + 2 * number;
            if !used.contains(first + 1) {
                unused.push(UnusedAlternative {
                    span: self.alternatives[number as usize],
                    tried: used.contains(first),
                })?;
            }
        }
        Ok(unused)
    }
}

// The parser of the marked grammar, which makes no node but the root.
fn marked_parser(alloc: Global, marked: Grammar) -> Result<ShownParser, CoverageFault>
    requires { ∥ IsWellFormedGrammar (rules_in marked) ∥₁ }
    ensures rules { IfOk result (λ parser. shown_parser_rules parser ≡ rules_in marked) }
    ensures refused { IfErr result (IsParserRefusal (rules_in marked)) }
{
    match Parser::from_grammar(alloc, marked) {
        Ok(parser) => Ok(parser.without_nodes(alloc)?),
        Err(Refusal::CodeTooLarge) => Err(CoverageFault::CodeTooLarge),
        Err(Refusal::Memory) => Err(CoverageFault::Memory),
        Err(Refusal::Notation(_) | Refusal::Grammar(_) | Refusal::NotWellFormed(_, _)) => {
            unreachable!()
        }
    }
}
