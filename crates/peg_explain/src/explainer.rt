//! Where texts don't match a grammar file.
ghost use Rattle.std.specs.Prelude.{◌≡◌, ◌^◌, ◌≤◌, ◌<◌, ◌↔◌, ◌+◌, ℕ, false, true, List, [], IfOk, IfSome, IsErrOf};
ghost use Rattle.std.specs.Prelude.{◌++◌, None, OnOk, Some, length, map, option_map};
ghost use Rattle.peg_blame.specs.BlameCalls.{is_called};
ghost use Rattle.peg_blame.specs.BlameOutcome.{IsBlameOutcome};
ghost use Rattle.peg_blame.specs.BlameParser.{IsBlameParserOf};
ghost use Rattle.peg_diagnostics.specs.Blame.{StartHasBlame};
ghost use Rattle.peg_diagnostics.specs.Diagnostic.{diagnostic_rules};
ghost use Rattle.peg_grammar.specs.Limits.{max_text_bytes};
ghost use Rattle.peg_parser.specs.Parser.{parser_rules, start_named};
ghost use Rattle.peg_parser.specs.StepLimits.{TakesMoreSteps};
ghost use Rattle.peg_semantics.specs.Record.{Record};
ghost use Rattle.peg_semantics.specs.Rules.{Rule};
ghost use Rattle.peg_semantics.specs.Starts.{start_name};
ghost use Rattle.peg_tree.specs.Selected.{has_rule};
ghost use Rattle.peg_blame.specs.InText.{IsInText};
ghost use Rattle.peg_bytes.specs.Extent.{extent};
ghost use Rattle.peg_grammar.specs.GrammarRules.{rules_in};
ghost use Rattle.std.specs.List.{prefix_len};
ghost use Rattle.peg_explain.specs.Explanations.{AreRestsBy, ExplainingAnswersWithin, ExplainingStaysWithin};
ghost use Rattle.peg_explain.specs.Explanations.{ExplainingTakesMoreSteps};
ghost use Rattle.peg_explain.specs.Explanations.{HasMismatch, IsExplanation, IsExplanationIn, IsMismatchIn};
ghost use Rattle.peg_explain.specs.Explanations.{IsMismatchMessage, IsMismatchMessageIn, ItemFacts};
ghost use Rattle.peg_explain.specs.Explanations.{defined_extent, expected_items, fact_of, facts_by_blame};
ghost use Rattle.peg_explain.specs.Explanations.{in_file_order, is_before, left_out_spacing, message_item_of, note_text};
ghost use Rattle.peg_explain.specs.Explanations.{rule_item, rule_name, shown_item, worded_item};
ghost use Rattle.peg_explain.specs.Names.{outermost_rules};
ghost use Rattle.peg_explain.specs.Namings.{AreItemsFor};
ghost use Rattle.peg_explain.specs.Reports.{are_items_expected, is_whole_match, named_position};

use crate::blames::{Blames, compile_blames};
use crate::expected::{
    Items, is_more_expected, items_of_failure, spans_of_terminals, unnamed_items,
};
use crate::mismatch::{Analysis, ExpectedItem, Mismatch, Wording};
use crate::names::{Naming, Rest, outermost_rules};
use crate::outcomes::{are_items_expected, is_end_expected, is_whole_match, named_position};
use crate::style::ItemStyle;
use peg_blame::BlameParser;
use peg_bytes::Span;
use peg_grammar::Grammar;
use peg_messages::{Failure, Item, TextLines};
use peg_parser::{Answer, ParseFault, ParseOptions, Parser};
use peg_spacing::spacing_rules;
use peg_tree::{Outcome, RuleSet};
use std::alloc::{AllocError, Global};

/// Explains where texts don't match a grammar file.
#[derive(Drop)]
pub struct Explainer<'a> {
    file: &'a [u8],
    parser: &'a Parser,
    blames: Blames<'a>,
    style: ItemStyle,
}

impl<'a> Explainer<'a> {
    ghost use Rattle.peg_explain.specs.Explainers.{IsBlameOf, IsExplainerOf};

    /// Returns the explainer of a grammar file and its parser, whose messages have a style. The only error is a failed
    /// allocation.
    ///
    /// If the diagnostic grammar is over a limit that the grammar meets, messages name the furthest failure of
    /// `Parser::parse`, which counts terminals in predicates, too. A note at the end of a message says so.
    pub fn new(
        alloc: Global,
        file: &'a [u8],
        parser: &'a Parser,
        style: ItemStyle,
    ) -> Result<Explainer<'a>, AllocError>
        ensures made { IfOk result (IsExplainerOf file.now (parser_rules parser.now)) }
        ensures styled { IfOk result (λ explainer. explainer.style ≡ style) }
    {
        let blames = compile_blames(alloc, parser)?;
        Ok(Explainer {
            file,
            parser,
            blames: Blames::Owned(blames),
            style,
        })
    }

    /// Returns the explainer of a grammar file and its parser by what `compile_blames` returned for the parser. Its
    /// messages are those of `new`. Compiles nothing.
    pub fn with_blames(
        file: &'a [u8],
        parser: &'a Parser,
        blames: &'a Option<BlameParser>,
        style: ItemStyle,
    ) -> Explainer<'a>
        ensures made { IsBlameOf (parser_rules parser.now) blames.now
            → IsExplainerOf file.now (parser_rules parser.now) result }
        ensures styled { result.style ≡ style }
    {
        Explainer {
            file,
            parser,
            blames: Blames::Kept(blames),
            style,
        }
    }

    /// Returns the message for a text that doesn't match as a whole, or nothing if it does. The name begins the
    /// message.
    ///
    /// The message names the furthest failure outside predicates: the greatest offset where an item failed, and the
    /// items that failed there. An item is a terminal or a predicate outside predicates; it fails at its own start. The
    /// end of the text is expected, too, if the match ended at that offset, and alone if it ended after it. A rule that
    /// is called at that offset and fails at once stands for its items. Spacing is left out if more is expected.
    ///
    /// The errors are those of `Parser::parse`. The steps are those of the diagnostic grammar, if it is within the
    /// limits. Of many items the first 65,536 are looked at. A text that doesn't match is parsed again if the style uses
    /// names, and the rest of it from each of the first 64 rules that are called at that offset.
    ///
    /// # Example
    ///
    /// ```
    /// let parser = Parser::from_file(alloc, file)?;
    /// let explainer = Explainer::new(alloc, file, &parser, ItemStyle::from_flags(false, false))?;
    /// let message = explainer.explain(alloc, b"a.txt", text, &options)?;
    /// ```
    pub fn explain(
        &self,
        alloc: Global,
        name: &[u8],
        text: &[u8],
        options: &ParseOptions<'_>,
    ) -> Result<Option<Vec<u8>>, ParseFault>
        ensures no_start { (file : List ℕ) (rules : List Rule) → IsExplainerOf file rules self.now
            → (IsErrOf result ParseFault.NoSuchStart ↔ (start_name rules (start_named options.now) ≡ None)) }
        ensures long { (file : List ℕ) (rules : List Rule) (start : List ℕ) → IsExplainerOf file rules self.now
            → start_name rules (start_named options.now) ≡ Some start
            → (IsErrOf result ParseFault.TextTooLong ↔ (max_text_bytes < length text.now)) }
        ensures short { OnOk result (length text.now ≤ max_text_bytes) }
        ensures explanation { (file : List ℕ) (rules : List Rule) → IsExplainerOf file rules self.now
            → IfOk result (λ message. IfSome (start_name rules (start_named options.now))
            (λ start. IsExplanation file rules self.now.style name.now text.now start
            (option_map (λ bytes. bytes.items) message))) }
        ensures limited { (file : List ℕ) (rules : List Rule) → IsExplainerOf file rules self.now
            → IsErrOf result ParseFault.StepLimit
            → ExplainingTakesMoreSteps rules text.now (start_named options.now) options.now.steps }
        ensures enough { (file : List ℕ) (rules : List Rule) → IsExplainerOf file rules self.now
            → options.now.memo ≡ 0 → OnOk result
            (ExplainingStaysWithin rules text.now (start_named options.now) options.now.steps) }
        ensures within { (file : List ℕ) (rules : List Rule) → IsExplainerOf file rules self.now
            → OnOk result (ExplainingAnswersWithin rules text.now (start_named options.now) options.now.steps) }
    {
        self.explain_in(alloc, name, TextLines::File, text, options)
    }

    /// Returns what `explain` returns, for a text that may be a part of a file: the message has the line and the column
    /// of the file.
    ///
    /// # Example
    ///
    /// ```
    /// let lines = TextLines::Part { line_feeds: 2 };
    /// let message = explainer.explain_in(alloc, b"a.log", lines, third_line, &options)?;
    /// ```
    pub fn explain_in(
        &self,
        alloc: Global,
        name: &[u8],
        lines: TextLines,
        text: &[u8],
        options: &ParseOptions<'_>,
    ) -> Result<Option<Vec<u8>>, ParseFault>
        ensures no_start { (file : List ℕ) (rules : List Rule) → IsExplainerOf file rules self.now
            → (IsErrOf result ParseFault.NoSuchStart ↔ (start_name rules (start_named options.now) ≡ None)) }
        ensures long { (file : List ℕ) (rules : List Rule) (start : List ℕ) → IsExplainerOf file rules self.now
            → start_name rules (start_named options.now) ≡ Some start
            → (IsErrOf result ParseFault.TextTooLong ↔ (max_text_bytes < length text.now)) }
        ensures short { OnOk result (length text.now ≤ max_text_bytes) }
        ensures explanation { (file : List ℕ) (rules : List Rule) → IsExplainerOf file rules self.now
            → IfOk result (λ message. IfSome (start_name rules (start_named options.now))
            (λ start. IsExplanationIn file rules self.now.style lines name.now text.now start
            (option_map (λ bytes. bytes.items) message))) }
        ensures limited { (file : List ℕ) (rules : List Rule) → IsExplainerOf file rules self.now
            → IsErrOf result ParseFault.StepLimit
            → ExplainingTakesMoreSteps rules text.now (start_named options.now) options.now.steps }
        ensures enough { (file : List ℕ) (rules : List Rule) → IsExplainerOf file rules self.now
            → options.now.memo ≡ 0 → OnOk result
            (ExplainingStaysWithin rules text.now (start_named options.now) options.now.steps) }
        ensures within { (file : List ℕ) (rules : List Rule) → IsExplainerOf file rules self.now
            → OnOk result (ExplainingAnswersWithin rules text.now (start_named options.now) options.now.steps) }
    {
        match self.mismatch(alloc, text, options)? {
            Some(mismatch) => Ok(Some(self.message_in(alloc, name, lines, text, &mismatch)?)),
            None => Ok(None),
        }
    }

    /// Returns where a text doesn't match as a whole, or nothing if it does. See `explain`, whose message names this
    /// position and these items. The errors are those of `Parser::parse`.
    pub fn mismatch(
        &self,
        alloc: Global,
        text: &[u8],
        options: &ParseOptions<'_>,
    ) -> Result<Option<Mismatch>, ParseFault>
        ensures no_start { (file : List ℕ) (rules : List Rule) → IsExplainerOf file rules self.now
            → (IsErrOf result ParseFault.NoSuchStart ↔ (start_name rules (start_named options.now) ≡ None)) }
        ensures long { (file : List ℕ) (rules : List Rule) (start : List ℕ) → IsExplainerOf file rules self.now
            → start_name rules (start_named options.now) ≡ Some start
            → (IsErrOf result ParseFault.TextTooLong ↔ (max_text_bytes < length text.now)) }
        ensures short { OnOk result (length text.now ≤ max_text_bytes) }
        ensures mismatch { (file : List ℕ) (rules : List Rule) → IsExplainerOf file rules self.now
            → IfOk result (λ mismatch. IfSome (start_name rules (start_named options.now))
            (λ start. IsMismatchIn rules self.now.style text.now start mismatch)) }
        ensures in_text { IfOk result (λ found. IfSome found (λ mismatch. mismatch.at ≤ length text.now)) }
        ensures few { IfOk result (λ found. IfSome found (λ mismatch.
            length mismatch.rules.items + length mismatch.expected.items < 2 ^ 32)) }
        ensures limited { (file : List ℕ) (rules : List Rule) → IsExplainerOf file rules self.now
            → IsErrOf result ParseFault.StepLimit
            → ExplainingTakesMoreSteps rules text.now (start_named options.now) options.now.steps }
        ensures enough { (file : List ℕ) (rules : List Rule) → IsExplainerOf file rules self.now
            → options.now.memo ≡ 0 → OnOk result
            (ExplainingStaysWithin rules text.now (start_named options.now) options.now.steps) }
        ensures within { (file : List ℕ) (rules : List Rule) → IsExplainerOf file rules self.now
            → OnOk result (ExplainingAnswersWithin rules text.now (start_named options.now) options.now.steps) }
    {
        match self.blames.get() {
            Some(blames) => {
                let answer = blames.blame(alloc, text, options)?;
                let expected = self.expected_by_blame(alloc, blames, text, options, &answer)?;
                Ok(mismatch_in(text, &answer.outcome, expected, Analysis::Items))
            }
            None => {
                let answer = self.parser.parse(alloc, text, options)?;
                let spans = spans_of_terminals(alloc, self.parser, &answer.outcome)?;
                let items = unnamed_items(alloc, &spans)?;
                let rules = Vec::new(alloc);
                let expected = Expected { items, rules };
                Ok(mismatch_in(text, &answer.outcome, expected, Analysis::Tests))
            }
        }
    }

    // Returns what is expected by the answer of a blame; nothing if the text matches as a whole.
    fn expected_by_blame(
        &self,
        alloc: Global,
        blames: &BlameParser,
        text: &[u8],
        options: &ParseOptions<'_>,
        answer: &Answer,
    ) -> Result<Expected, ParseFault>
        requires short { length text.now ≤ max_text_bytes }
        requires in_text { IsInText text.now answer.now.outcome }
        ensures items { (rules : List Rule) (start : List ℕ) → IsBlameParserOf rules blames.now
            → parser_rules self.now.parser.now ≡ rules
            → start_name rules (start_named options.now) ≡ Some start
            → (is : IsBlameOutcome rules text.now start answer.now.outcome)
            → IfOk result (λ expected. AreItemsFor rules self.now.style text.now start answer.now.outcome
            is.blame.calls (map fact_of expected.items.items) expected.rules.items) }
        ensures few { IfOk result (λ expected. length expected.rules.items + length expected.items.items < 2 ^ 32) }
        ensures no_start { (rules : List Rule) → IsBlameParserOf rules blames.now
            → parser_rules self.now.parser.now ≡ rules
            → IsErrOf result ParseFault.NoSuchStart → start_name rules (start_named options.now) ≡ None }
        ensures long { (rules : List Rule) (start : List ℕ) → IsBlameParserOf rules blames.now
            → parser_rules self.now.parser.now ≡ rules
            → start_name rules (start_named options.now) ≡ Some start
            → IsErrOf result ParseFault.TextTooLong → max_text_bytes < length text.now }
        ensures limited { (rules : List Rule) → IsBlameParserOf rules blames.now
            → parser_rules self.now.parser.now ≡ rules → IsErrOf result ParseFault.StepLimit
            → TakesMoreSteps (diagnostic_rules rules) text.now (start_named options.now) options.now.steps }
    {
        let outcome = &answer.outcome;
        if is_whole_match(outcome, text.len()) || !are_items_expected(outcome) {
            return Ok(nothing_expected(alloc));
        }
        let spacing = self.left_out_spacing(alloc, blames, outcome)?;
        let rests = self.rests_for(alloc, blames, &spacing, text, options, answer)?;
        let rules = outermost_rules(alloc, &rests)?;
        let items = items_by_blame(alloc, blames, &spacing, &rests, outcome)?;
        Ok(Expected { items, rules })
    }

    // Returns whether the message leaves each rule out, by number. It leaves out spacing, if the style uses names and
    // more is expected.
    fn left_out_spacing(
        &self,
        alloc: Global,
        blames: &BlameParser,
        outcome: &Outcome,
    ) -> Result<Vec<bool>, AllocError>
        ensures { (rules : List Rule) → IsBlameParserOf rules blames.now → parser_rules self.now.parser.now ≡ rules
            → IfOk result (λ spacing. spacing.items ≡ left_out_spacing rules self.now.style outcome.now) }
    {
        if !self.style.uses_names {
            return Ok(Vec::new(alloc));
        }
        let spacing = spacing_rules(alloc, self.parser.grammar())?;
        if is_more_expected(&spacing, blames.item_rules(), outcome) {
            Ok(spacing)
        } else {
            Ok(Vec::new(alloc))
        }
    }

    // Returns the rests of the text by which the message names rules, given those that it leaves out.
    fn rests_for(
        &self,
        alloc: Global,
        blames: &BlameParser,
        spacing: &[bool],
        text: &[u8],
        options: &ParseOptions<'_>,
        answer: &Answer,
    ) -> Result<Vec<Rest>, ParseFault>
        requires short { length text.now ≤ max_text_bytes }
        requires in_text { IsInText text.now answer.now.outcome }
        ensures rests { (rules : List Rule) (start : List ℕ) (blame : Record) → IsBlameParserOf rules blames.now
            → parser_rules self.now.parser.now ≡ rules
            → start_name rules (start_named options.now) ≡ Some start → StartHasBlame rules text.now start blame
            → IfOk result (λ rests. AreRestsBy self.now.style.uses_names rules spacing.now text.now start blame.calls
            (named_position answer.now.outcome.result answer.now.outcome.far) rests.items) }
        ensures few { IfOk result (λ rests. length rests.items ≤ 64) }
        ensures no_start { (rules : List Rule) → IsBlameParserOf rules blames.now
            → parser_rules self.now.parser.now ≡ rules
            → IsErrOf result ParseFault.NoSuchStart → start_name rules (start_named options.now) ≡ None }
        ensures long { (rules : List Rule) (start : List ℕ) → IsBlameParserOf rules blames.now
            → parser_rules self.now.parser.now ≡ rules
            → start_name rules (start_named options.now) ≡ Some start
            → IsErrOf result ParseFault.TextTooLong → max_text_bytes < length text.now }
        ensures limited { (rules : List Rule) → IsBlameParserOf rules blames.now
            → parser_rules self.now.parser.now ≡ rules → IsErrOf result ParseFault.StepLimit
            → TakesMoreSteps (diagnostic_rules rules) text.now (start_named options.now) options.now.steps }
    {
        if !self.style.uses_names {
            return Ok(Vec::new(alloc));
        }
        let at = named_position(&answer.outcome);
        let called = called_rules(alloc, blames, text, options, answer.steps, at)?;
        let grammar = self.parser.grammar();
        let naming = Naming {
            blames,
            grammar,
            start: start_of(grammar, options),
            spacing,
            called: &called,
            rest: &text[at as usize..],
            memo: options.memo,
        };
        naming.rests(alloc)
    }

    /// Returns the message for a mismatch in a text. The name begins the message. The only error is a failed
    /// allocation.
    pub fn message(
        &self,
        alloc: Global,
        name: &[u8],
        text: &[u8],
        mismatch: &Mismatch,
    ) -> Result<Vec<u8>, AllocError>
        requires short { length text.now ≤ max_text_bytes }
        requires in_text { mismatch.now.at ≤ length text.now }
        requires few { length mismatch.now.rules.items + length mismatch.now.expected.items < 2 ^ 32 }
        ensures { (file : List ℕ) (rules : List Rule) → IsExplainerOf file rules self.now
            → IfOk result (λ message. IsMismatchMessage file rules self.now.style name.now text.now mismatch.now
            message.items) }
    {
        self.message_in(alloc, name, TextLines::File, text, mismatch)
    }

    // Returns the same for a text with these lines.
    fn message_in(
        &self,
        alloc: Global,
        name: &[u8],
        lines: TextLines,
        text: &[u8],
        mismatch: &Mismatch,
    ) -> Result<Vec<u8>, AllocError>
        requires short { length text.now ≤ max_text_bytes }
        requires in_text { mismatch.now.at ≤ length text.now }
        requires few { length mismatch.now.rules.items + length mismatch.now.expected.items < 2 ^ 32 }
        ensures { (file : List ℕ) (rules : List Rule) → IsExplainerOf file rules self.now
            → IfOk result (λ message. IsMismatchMessageIn file rules self.now.style lines name.now text.now
            mismatch.now message.items) }
    {
        let items = self.message_items(alloc, &mismatch.rules, &mismatch.expected)?;
        let failure = Failure {
            name,
            text,
            lines,
            grammar: self.file,
            at: mismatch.at,
            expected: &items,
            is_end_expected: mismatch.is_end_expected,
        };
        let mut message = Vec::new(alloc);
        failure.write(alloc, &mut message)?;
        write_note(mismatch.analysis, &mut message)?;
        Ok(message)
    }

    // Returns rules and items as a message has them, in the order of the grammar file.
    fn message_items(
        &self,
        alloc: Global,
        rules: &[u32],
        expected: &[ExpectedItem],
    ) -> Result<Vec<Item<'_>>, AllocError>
        ensures items { IfOk result (λ items. map message_item_of items.items
            ≡ in_file_order (parser_rules self.now.parser.now) self.now.style rules.now expected.now) }
    {
        let mut items = Vec::new(alloc);
        let mut others = rules;
        'expected: for item in expected {
            let (before, after) = others.split_at(rules_before(others, item.rule));
            self.add_rules(before, &mut items)?;
            items.push(self.message_item(item))?;
            others = after;
        }
        self.add_rules(others, &mut items)?;
        Ok(items)
    }

    // Adds rules as a message has them.
    fn add_rules<'s>(&'s self, rules: &[u32], items: &mut Vec<Item<'s>>) -> Result<(), AllocError>
        ensures { OnOk result (map message_item_of items.new.items
            ≡ map message_item_of items.old.items ++ map (rule_item (parser_rules self.now.parser.now)) rules.now) }
    {
        'rules: for rule in rules {
            items.push(self.rule_item(*rule))?;
        }
        Ok(())
    }

    // Returns a rule as a message has it.
    fn rule_item(&self, rule: u32) -> Item<'_>
        ensures { message_item_of result ≡ rule_item (parser_rules self.now.parser.now) rule }
    {
        Item {
            span: self.name_span(rule),
            rule: None,
            name: self.rule_name(Some(rule)),
            is_left_out: false,
        }
    }

    // Returns an item as a message has it.
    fn message_item(&self, item: &ExpectedItem) -> Item<'_>
        ensures { message_item_of result ≡ shown_item (parser_rules self.now.parser.now) self.now.style item.now }
    {
        let rule = self.rule_name(item.rule);
        worded_item(item.wording, item.span, rule, self.style.shows_rules)
    }

    // Returns the name of the rule with a number, if there is one.
    fn rule_name(&self, rule: Option<u32>) -> Option<&str>
        ensures { option_map (λ name. name.now) result ≡ rule_name (parser_rules self.now.parser.now) rule }
    {
        let grammar = self.parser.grammar();
        match rule {
            Some(number) if number < grammar.rules() => Some(grammar.rule_name(number)),
            _ => None,
        }
    }

    // Returns the span of the name of a rule, or an empty one if there is no rule with this number.
    fn name_span(&self, rule: u32) -> Span
        ensures { extent result ≡ defined_extent (parser_rules self.now.parser.now) rule }
    {
        let grammar = self.parser.grammar();
        if rule < grammar.rules() {
            grammar.name_span(rule)
        } else {
            Span::new(0, 0)
        }
    }
}

// What is expected: items, and the rules that are named for some of them.
#[derive(Drop)]
struct Expected {
    items: Vec<ExpectedItem>,
    rules: Vec<u32>,
}

// Returns that nothing is expected.
fn nothing_expected(alloc: Global) -> Expected
    ensures items { result.items.items ≡ [] }
    ensures rules { result.rules.items ≡ [] }
{
    Expected {
        items: Vec::new(alloc),
        rules: Vec::new(alloc),
    }
}

// Returns the items that are expected by the outcome of a blame.
fn items_by_blame(
    alloc: Global,
    blames: &BlameParser,
    spacing: &[bool],
    rests: &[Rest],
    outcome: &Outcome,
) -> Result<Vec<ExpectedItem>, AllocError>
    requires { true ≡ are_items_expected outcome.now.result outcome.now.far }
    ensures items { IfOk result (λ items. (rules : List Rule) → IsBlameParserOf rules blames.now
        → map fact_of items.items ≡ expected_items (facts_by_blame rules spacing.now rests.now) outcome.now) }
    ensures few { IfOk result (λ items. length items.items ≤ 65536) }
{
    let items = Items {
        spans: blames.items(),
        rules: blames.item_rules(),
        kinds: blames.item_kinds(),
        spacing,
    };
    items_of_failure(alloc, &items, rests, outcome)
}

// Returns the name of the start rule.
fn start_of<'g>(grammar: &'g Grammar, options: &ParseOptions<'g>) -> &'g str
    ensures { (start : List ℕ) → start_name (rules_in grammar.now) (start_named options.now) ≡ Some start
        → result.now ≡ start }
{
    let count = grammar.rules();
    prove!(0 < count);
    match options.start {
        Some(name) => name,
        None => grammar.rule_name(0),
    }
}

// Returns how many of these rules come before an item of a rule.
fn rules_before(rules: &[u32], own: Option<u32>) -> usize
    ensures count { result ≡ prefix_len (is_before own) rules.now }
    ensures within { result ≤ length rules.now }
{
    'each: for count in 0..rules.len() {
        if !is_before(own, rules[count]) {
            return count;
        }
    }
    rules.len()
}

// Returns whether a rule has no greater number than the rule of an item, if that is known.
fn is_before(own: Option<u32>, rule: u32) -> bool
    ensures { result ≡ is_before own rule }
{
    match own {
        Some(own) => rule <= own,
        None => false,
    }
}

// Returns an item in a wording.
fn worded_item(wording: Wording, span: Span, rule: Option<&str>, shows_rule: bool) -> Item<'_>
    ensures { message_item_of result
        ≡ worded_item wording (extent span) (option_map (λ name. name.now) rule.entry) shows_rule }
{
    match wording {
        Wording::Spelling => Item {
            span,
            rule: if shows_rule { rule } else { None },
            name: None,
            is_left_out: false,
        },
        Wording::RuleName => Item {
            span,
            rule: None,
            name: rule,
            is_left_out: false,
        },
        Wording::LeftOut => Item {
            span,
            rule: None,
            name: None,
            is_left_out: true,
        },
    }
}

// Returns the rules that are called at a position. The blame took these steps. If it took them without a memo, so does
// the parse for the rules, which is faster then.
fn called_rules(
    alloc: Global,
    blames: &BlameParser,
    text: &[u8],
    options: &ParseOptions<'_>,
    steps: u64,
    at: u32,
) -> Result<RuleSet, ParseFault>
    ensures called { (rules : List Rule) (start : List ℕ) (blame : Record) → IsBlameParserOf rules blames.now
        → start_name rules (start_named options.now) ≡ Some start → StartHasBlame rules text.now start blame
        → IfOk result (λ set. (rule : ℕ) → has_rule set rule ≡ is_called blame.calls rule at) }
    ensures no_start { (rules : List Rule) → IsBlameParserOf rules blames.now
        → IsErrOf result ParseFault.NoSuchStart → start_name rules (start_named options.now) ≡ None }
    ensures long { (rules : List Rule) (start : List ℕ) → IsBlameParserOf rules blames.now
        → start_name rules (start_named options.now) ≡ Some start
        → IsErrOf result ParseFault.TextTooLong → max_text_bytes < length text.now }
    ensures limited { (rules : List Rule) → IsBlameParserOf rules blames.now → IsErrOf result ParseFault.StepLimit
        → TakesMoreSteps (diagnostic_rules rules) text.now (start_named options.now) options.now.steps }
{
    let plain = ParseOptions {
        start: options.start,
        memo: 0,
        steps: Some(steps),
    };
    match blames.called_rules(alloc, text, &plain, at) {
        Err(ParseFault::StepLimit) => blames.called_rules(alloc, text, options, at),
        result => result,
    }
}

// Returns the mismatch of an outcome, where this is expected.
fn mismatch_in(
    text: &[u8],
    outcome: &Outcome,
    expected: Expected,
    analysis: Analysis,
) -> Option<Mismatch>
    requires in_text { IsInText text.now outcome.now }
    requires few { length expected.rules.items + length expected.items.items < 2 ^ 32 }
    ensures mismatch { (facts : ItemFacts) → facts.analysis ≡ analysis
        → expected.rules.items ≡ outermost_rules facts.rests
        → (is_whole_match outcome.now.result (length text.now) ≡ false
        → map fact_of expected.items.items ≡ expected_items facts outcome.now)
        → HasMismatch facts text.now outcome.now result }
    ensures in_text { IfSome result (λ mismatch. mismatch.at ≤ length text.now) }
    ensures few { IfSome result (λ mismatch.
        length mismatch.rules.items + length mismatch.expected.items < 2 ^ 32) }
{
    if is_whole_match(outcome, text.len()) {
        return None;
    }
    let Expected { items, rules } = expected;
    Some(Mismatch {
        at: named_position(outcome),
        expected: items,
        rules,
        is_end_expected: is_end_expected(outcome),
        analysis,
    })
}

// Writes the note at the end of a message, if terminals in predicates count.
fn write_note(analysis: Analysis, out: &mut Vec<u8>) -> Result<(), AllocError>
    ensures { OnOk result (out.new.items ≡ out.old.items ++ note_text analysis) }
{
    match analysis {
        Analysis::Items => Ok(()),
        Analysis::Tests => out.extend_from_slice(b"note: failures in predicates are included\n"),
    }
}
