//! Parsers that blame items: the furthest failure of a text outside predicates.
ghost use Rattle.std.specs.Prelude.{◌≡◌, ◌<◌, ◌≤◌, List, All, IfErr, IfOk, IfSome, None, OnOk, Some};
ghost use Rattle.std.specs.Prelude.{is_some, length, map};
ghost use Rattle.std.specs.List.Sorted.{IsStrictlyIncreasing};
ghost use Rattle.peg_blame.specs.BlameOutcome.{IsBlameOutcome};
ghost use Rattle.peg_parser.specs.ShowsNone.{ShowsNone};
ghost use Rattle.peg_blame.specs.Faults.{IsBlameRefusal, IsParserRefusal};
ghost use Rattle.peg_bytes.specs.Extent.{extent};
ghost use Rattle.peg_diagnostics.specs.Diagnostic.{diagnostic_rules};
ghost use Rattle.peg_blame.specs.BlameCalls.{HasCalledRules};
ghost use Rattle.peg_blame.specs.InText.{IsInText};
ghost use Rattle.peg_diagnostics.specs.ItemKinds.{kinds_of_items};
ghost use Rattle.peg_diagnostics.specs.Items.{extents_of_items, rules_of_items};
ghost use Rattle.peg_grammar.specs.GrammarRules.{rules_in};
ghost use Rattle.peg_grammar.specs.Limits.{max_text_bytes};
ghost use Rattle.peg_code.specs.Compiled.{max_instructions};
ghost use Rattle.peg_parser.specs.Accepts.{code_size};
ghost use Rattle.peg_parser.specs.ParseContract.{HasParseFaults, HasParseSteps, HasStepLimit};
ghost use Rattle.peg_parser.specs.Engine.{rules_shown, shown_parser_rules};
ghost use Rattle.peg_parser.specs.Parser.{start_named};
ghost use Rattle.peg_semantics.specs.Rules.{Rule};
ghost use Rattle.peg_semantics.specs.Starts.{start_name};
ghost use Rattle.peg_semantics.specs.WellFormed.{IsWellFormedGrammar};

use crate::calls_at::CallsAt;
use crate::fault::BlameFault;
use peg_bytes::Span;
use peg_diagnostics::{
    ItemKind, diagnostic_grammar, item_kinds, item_rules, item_spans, item_terminals,
};
use peg_grammar::{Grammar, MAX_TEXT_BYTES};
use peg_parser::{Answer, ParseFault, ParseOptions, Parser, Refusal, ShownParser};
use peg_tree::RuleSet;
use std::alloc::Global;

/// The parser of a grammar's diagnostic grammar. It parses as the grammar does, without nodes but the root, and finds
/// the furthest failure of an item: a terminal or a predicate, outside predicates.
#[derive(Drop)]
pub struct BlameParser {
    parser: ShownParser,
    rules: u32,
    terminals: Vec<u32>,
    items: Vec<Span>,
    item_rules: Vec<u32>,
    item_kinds: Vec<ItemKind>,
    ghost ascending: { IsStrictlyIncreasing terminals.items },
}

impl BlameParser {
    ghost use Rattle.peg_blame.specs.BlameParser.{IsBlameParserOf};

    /// Returns the parser of blame for a grammar, or why it has none. It has one if four things hold. The grammar is
    /// well-formed (Ford 2004, section 3.6). No name of a rule contains `!`. The diagnostic grammar and its code are
    /// within the limits. No allocation fails.
    ///
    /// # Example
    ///
    /// ```
    /// let blames = BlameParser::new(alloc, parser.grammar())?;
    /// println!("{} items", blames.items().len());
    /// ```
    pub fn new(alloc: Global, grammar: &Grammar) -> Result<BlameParser, BlameFault>
        ensures made { IfOk result (IsBlameParserOf (rules_in grammar.now)) }
        ensures refused { IfErr result (IsBlameRefusal (rules_in grammar.now)) }
    {
        let diagnostic = diagnostic_grammar(alloc, grammar)?;
        let parser = diagnostic_parser(alloc, diagnostic)?;
        let terminals = item_terminals(alloc, grammar)?;
        let items = item_spans(alloc, grammar)?;
        let item_rules = item_rules(alloc, grammar)?;
        let item_kinds = item_kinds(alloc, grammar)?;
        Ok(BlameParser {
            parser,
            rules: grammar.rules(),
            terminals,
            items,
            item_rules,
            item_kinds,
        })
    }

    /// Returns the span of each item in the grammar file, by item number. Constant time.
    pub fn items(&self) -> &[Span]
        ensures { (rules : List Rule) → IsBlameParserOf rules self.now
            → map extent result.now ≡ extents_of_items rules }
    {
        self.items.as_slice()
    }

    /// Returns the number of the rule that each item is in, by item number. Constant time.
    pub fn item_rules(&self) -> &[u32]
        ensures { (rules : List Rule) → IsBlameParserOf rules self.now → result.now ≡ rules_of_items rules }
    {
        self.item_rules.as_slice()
    }

    /// Returns what each item is, by item number. Constant time.
    pub fn item_kinds(&self) -> &[ItemKind]
        ensures { (rules : List Rule) → IsBlameParserOf rules self.now → result.now ≡ kinds_of_items rules }
    {
        self.item_kinds.as_slice()
    }

    /// Parses a prefix of a text by the grammar as written. Success and consumed length are those of Ford's relation
    /// (Ford 2004, section 3.3); the tree is the root alone. The furthest failure is that of the blame: the greatest
    /// offset where an item failed outside predicates, and the numbers of the items that failed there, ascending. By
    /// the law `each_blamed_item_fails` of `peg_diagnostics` each of them fails there by Ford's relation, too.
    ///
    /// The errors are those of `Parser::parse` for the grammar as written. The steps are those of the diagnostic
    /// grammar.
    ///
    /// # Example
    ///
    /// ```
    /// // The grammar `S <- !'if' [a-z]+ ';'`, whose items are the predicate, the class and ';'.
    /// let answer = blames.blame(alloc, b"if;", &options)?;
    /// assert_eq!((answer.outcome.far, answer.outcome.expected.as_slice()), (0, [0].as_slice()));
    /// ```
    pub fn blame(
        &self,
        alloc: Global,
        text: &[u8],
        options: &ParseOptions<'_>,
    ) -> Result<Answer, ParseFault>
        ensures faults { (rules : List Rule) → IsBlameParserOf rules self.now
            → HasParseFaults rules text.now (start_named options.now) result }
        ensures short { OnOk result (length text.now ≤ max_text_bytes) }
        ensures outcome { (rules : List Rule) → IsBlameParserOf rules self.now → IfOk result (λ answer.
            IfSome (start_name rules (start_named options.now))
            (λ start. IsBlameOutcome rules text.now start answer.outcome)) }
        ensures fits { (rules : List Rule) → IsBlameParserOf rules self.now → IfOk result (λ answer.
            All (λ item. item < length (extents_of_items rules)) answer.outcome.expected.items) }
        ensures in_text { IfOk result (λ answer. IsInText text.now answer.outcome) }

        // The step limit and the steps, in plain steps of the diagnostic grammar.
        ensures limit { (rules : List Rule) → IsBlameParserOf rules self.now
            → HasStepLimit (diagnostic_rules rules) text.now (start_named options.now) (options.now.memo ≡ 0)
            options.now.steps result }
        ensures steps { (rules : List Rule) → IsBlameParserOf rules self.now
            → HasParseSteps (diagnostic_rules rules) text.now (start_named options.now) (options.now.memo ≡ 0)
            options.now.steps result }
    {
        if !self.has_start(options) {
            return Err(ParseFault::NoSuchStart);
        }
        self.parser
            .parse_among(alloc, text, options, &self.terminals)
    }

    /// Returns the rules of the grammar as written that are called at a position of a text, outside predicates. The
    /// calls are those of Ford's record of the text (Ford 2004, section 3.3), without those in predicates. The law
    /// `blame_calls_are_calls` of `peg_diagnostics` says that each is a call of the record.
    ///
    /// The text is parsed again, in one run. The errors are those of `blame`. Takes one byte of memory for each rule,
    /// besides what the parse takes.
    ///
    /// # Example
    ///
    /// ```
    /// // The grammar `S <- A 'x'` and `A <- [a-z]`, which is called at the start of the text.
    /// let called = blames.called_rules(alloc, b"1", &options, 0)?;
    /// assert!(called.contains(1));
    /// ```
    pub fn called_rules(
        &self,
        alloc: Global,
        text: &[u8],
        options: &ParseOptions<'_>,
        at: u32,
    ) -> Result<RuleSet, ParseFault>
        ensures faults { (rules : List Rule) → IsBlameParserOf rules self.now
            → HasParseFaults rules text.now (start_named options.now) result }
        ensures called { (rules : List Rule) → IsBlameParserOf rules self.now → IfOk result (λ set.
            IfSome (start_name rules (start_named options.now))
            (λ start. HasCalledRules rules text.now start at set)) }
        ensures limit { (rules : List Rule) → IsBlameParserOf rules self.now
            → HasStepLimit (diagnostic_rules rules) text.now (start_named options.now) (options.now.memo ≡ 0)
            options.now.steps result }
    {
        if !self.has_start(options) {
            return Err(ParseFault::NoSuchStart);
        }
        if text.len() > MAX_TEXT_BYTES {
            return Err(ParseFault::TextTooLong);
        }
        let mut calls = CallsAt::new(alloc, self.rules, at)?;
        let _answer = self.parser.trace(alloc, text, options, &mut calls)?;
        Ok(calls.into_rules())
    }

    // Whether the start is a rule of the grammar as written. The diagnostic grammar has a quiet copy of each rule, too.
    fn has_start(&self, options: &ParseOptions<'_>) -> bool
        ensures { (rules : List Rule) → IsBlameParserOf rules self.now
            → result ≡ is_some (start_name rules (start_named options.now)) }
    {
        match options.start {
            None => true,
            Some(name) => match self.parser.grammar().rule_number(name) {
                Some(rule) => rule < self.rules,
                None => false,
            },
        }
    }
}

// The parser of the diagnostic grammar, which shows no rules.
fn diagnostic_parser(alloc: Global, diagnostic: Grammar) -> Result<ShownParser, BlameFault>
    ensures rules { IfOk result (λ parser. shown_parser_rules parser ≡ rules_in diagnostic) }
    ensures bare { IfOk result (λ parser. ShowsNone (rules_shown parser)) }
    ensures well_formed { OnOk result (IsWellFormedGrammar (rules_in diagnostic)) }
    ensures small { OnOk result (code_size (rules_in diagnostic) ≤ max_instructions) }
    ensures refused { IfErr result (IsParserRefusal (rules_in diagnostic)) }
{
    match Parser::from_grammar(alloc, diagnostic) {
        Ok(parser) => Ok(parser.without_nodes(alloc)?),
        Err(Refusal::NotWellFormed(_, _)) => Err(BlameFault::NotWellFormed),
        Err(Refusal::CodeTooLarge) => Err(BlameFault::CodeTooLarge),
        Err(Refusal::Memory) => Err(BlameFault::Memory),
        Err(Refusal::Notation(_) | Refusal::Grammar(_)) => unreachable!(),
    }
}
