//! Parsers: accepted grammar files, and parsing texts by them.
ghost use Rattle.std.specs.Prelude.{◌≡◌, ◌<◌, ◌≤◌, None, length, slice_get, Some, IfOk, IfErr, IfSome, IsErrOf, OnOk};
ghost use Rattle.peg_bytes.specs.Extent.{extent};
ghost use Rattle.peg_core.specs.CoreForm.{core_bodies};
ghost use Rattle.peg_core.specs.Layout.{bodies_of};
ghost use Rattle.peg_code.specs.Code.{entries_of, program_code};
ghost use Rattle.peg_code.specs.Compiled.{max_instructions};
ghost use Rattle.peg_grammar.specs.GrammarRules.{rules_in};
ghost use Rattle.peg_semantics.specs.Terminals.{extents_of_terminals};
ghost use Rattle.peg_semantics.specs.WellFormed.{IsWellFormedGrammar};
ghost use Rattle.peg_machine.specs.Traced.{GetsCalls};
ghost use Rattle.peg_parser.specs.Engine.{engine_rules, rules_shown, shown_in, shown_parser_rules};
ghost use Rattle.peg_parser.specs.ShowsNone.{ShowsNone};

use crate::engine::Engine;
use crate::large_code::refusal_of_large_code;
use crate::options::ParseOptions;
use crate::refusal::Refusal;
use crate::shown_parser::ShownParser;
use peg_bytes::Span;
use peg_check::check;
use peg_code::{MAX_INSTRUCTIONS, Program, code_size, compile};
use peg_core::desugar;
use peg_grammar::Grammar;
use peg_machine::{Answer, Watch};
use peg_notation::read;
use peg_tree::RuleSet;
use std::alloc::{AllocError, Global};
use thiserror::Error;

/// The parser of an accepted grammar file: its grammar is well-formed, is compiled, and parses every text.
#[derive(Drop)]
pub struct Parser {
    pub(crate) engine: Engine,
    pub ghost all_shown: { shown_in engine ≡ None },
}

/// Why a text isn't parsed.
#[derive(Clone, Copy, Debug, PartialEq, Eq, Error)]
pub enum ParseFault {
    /// No rule has the name of the start.
    #[error("no rule has the start's name")]
    NoSuchStart,
    /// The text has more than 67,108,864 bytes.
    #[error("the text is too long")]
    TextTooLong,
    /// The parse takes more steps than the limit allows.
    #[error("the parse takes more steps than the limit allows")]
    StepLimit,
    /// Out of memory.
    #[error("out of memory")]
    Memory,
}

impl From<AllocError> for ParseFault {
    ghost use Rattle.std.specs.Prelude.{◌≡◌};
    ghost use Rattle.peg_parser.specs.declared.parser.ParseFault.TheVariants.{Memory};

    ghost from_gives = { λ _ fault. fault ≡ Memory };

    fn from(_error: AllocError) -> ParseFault {
        ParseFault::Memory
    }
}

impl Parser {
    ghost use Rattle.peg_parser.specs.Accepts.{Accepts, code_size};
    ghost use Rattle.peg_parser.specs.Calls.{TracesCallsInOrder, TracesCallsOf};
    ghost use Rattle.peg_parser.specs.Calls.{TracesCallsSoFar, TracesSomeCalls};
    ghost use Rattle.peg_parser.specs.Faults.{RefusalMeaning, HasCause, HasDefinitionsOf};
    ghost use Rattle.peg_parser.specs.GrammarRefusals.{IsRefusalOfGrammar};
    ghost use Rattle.peg_parser.specs.ParseContract.{IsParse};
    ghost use Rattle.peg_parser.specs.Parser.{parser_rules, start_named};
    ghost use Rattle.peg_parser.specs.ProgramOf.{IsProgramOf};
    ghost use Rattle.peg_parser.specs.Refusals.{IsRefusalOf};
    ghost use Rattle.peg_semantics.specs.Starts.{start_name};

    /// Returns the parser of a grammar file, or why the file is rejected. The tests come in this order: the notation,
    /// a grammar, a well-formed grammar (Ford 2004, figure 1 and sections 3.1 and 3.6), and the size of its code.
    ///
    /// A file that passes the first three tests is rejected only for a stated limit or if an allocation fails. Linear
    /// in the file, apart from hashing and sorting the left calls of each rule.
    ///
    /// # Example
    ///
    /// ```
    /// let parser = Parser::from_file(alloc, b"S <- 'a' S / 'b'")?;
    /// assert_eq!(parser.grammar().rule_name(0), "S");
    /// ```
    #[tactic(auto, using(crate::proofs::AcceptLemmas::accepting))]
    pub fn from_file(alloc: Global, file: &[u8]) -> Result<Parser, Refusal>
        ensures accepted { IfOk result (λ parser. Accepts file.now (parser_rules parser)) }
        ensures refused { IfErr result (HasCause (IsRefusalOf file.now) (length file.now)) }
        ensures wrong { IfErr result (RefusalMeaning file.now) }
        ensures definitions { IfErr result (HasDefinitionsOf file.now) }
    {
        let definitions = read(alloc, file)?;
        let grammar = Grammar::new(alloc, definitions)?;
        if code_size(&grammar) > MAX_INSTRUCTIONS {
            return Err(refusal_of_large_code(alloc, grammar));
        }
        let core = desugar(alloc, &grammar)?;
        match check(alloc, core) {
            Ok(checked) => {
                let program = compile(alloc, checked)?;
                Parser::from_program(alloc, grammar, program)
            }
            Err(fault) => Err(Refusal::from_check(fault, grammar)),
        }
    }

    /// Returns the parser of a grammar that isn't from a file, or why it has none. It has one if it is well-formed
    /// (Ford 2004, section 3.6), its code is within the limit, and no allocation fails.
    ///
    /// Returns `NotWellFormed`, or `CodeTooLarge` for a well-formed grammar, or `Memory` if an allocation fails.
    ///
    /// # Example
    ///
    /// ```
    /// let grammar = grammar_of(alloc, b"S <- 'a' S / 'b'")?;
    /// let parser = Parser::from_grammar(alloc, grammar)?;
    /// assert_eq!(parser.grammar().rule_name(0), "S");
    /// ```
    pub fn from_grammar(alloc: Global, grammar: Grammar) -> Result<Parser, Refusal>
        ensures rules { IfOk result (λ parser. parser_rules parser ≡ rules_in grammar) }
        ensures well_formed { OnOk result (IsWellFormedGrammar (rules_in grammar)) }
        ensures small { OnOk result (code_size (rules_in grammar) ≤ max_instructions) }
        ensures refused { IfErr result (IsRefusalOfGrammar (rules_in grammar)) }
        ensures refused_where { IsWellFormedGrammar (rules_in grammar)
            → code_size (rules_in grammar) ≤ max_instructions → IfErr result (λ why. why ≡ Refusal.Memory) }
    {
        match check(alloc, desugar(alloc, &grammar)?) {
            Ok(checked) => Parser::from_program(alloc, grammar, compile(alloc, checked)?),
            Err(fault) => Err(Refusal::from_check(fault, grammar)),
        }
    }

    // The parser of a well-formed grammar and its code.
    fn from_program(alloc: Global, grammar: Grammar, program: Program) -> Result<Parser, Refusal>
        requires well_formed { IsWellFormedGrammar (rules_in grammar) }
        requires program { IsProgramOf (rules_in grammar) program }
        ensures rules { IfOk result (λ parser. parser_rules parser ≡ rules_in grammar) }
        ensures memory { IfErr result (λ why. why ≡ Refusal.Memory) }
    {
        let engine = Engine::new(alloc, grammar, program)?;
        Ok(Parser { engine })
    }

    /// Returns the parser that shows a set of rules, or all for `None`. Its trees have the root and the nodes of these
    /// rules, and its parses make no other nodes. Constant time.
    pub fn showing(self, shown: Option<RuleSet>) -> ShownParser
        ensures rules { shown_parser_rules result ≡ parser_rules self }
        ensures shown { rules_shown result ≡ shown }
    {
        ShownParser::new(self.engine.showing(shown))
    }

    /// Returns the parser that shows no rules: its trees have the root alone. Linear in the number of rules. The only
    /// error is a failed allocation.
    pub fn without_nodes(self, alloc: Global) -> Result<ShownParser, AllocError>
        ensures rules { IfOk result (λ shown. shown_parser_rules shown ≡ parser_rules self) }
        ensures bare { IfOk result (λ shown. ShowsNone (rules_shown shown)) }
    {
        let none = RuleSet::none(alloc, self.grammar().rules())?;
        Ok(self.showing(Some(none)))
    }

    // The parser of an engine that shows all rules.
    pub(crate) fn from_engine(engine: Engine) -> Parser
        requires { shown_in engine ≡ None }
        ensures { parser_rules result ≡ engine_rules engine }
    {
        Parser { engine }
    }

    /// Returns the grammar of the file. Constant time.
    pub fn grammar(&self) -> &Grammar
        ensures { rules_in result.now ≡ parser_rules self.now }
    {
        self.engine.grammar()
    }

    /// Returns the compiled code of the grammar. Each rule's expression is desugared first (Ford 2004, section 3.2).
    /// Constant time.
    pub fn program(&self) -> &Program
        ensures code { result.now.code ≡ program_code (core_bodies (parser_rules self.now)) }
        ensures entries { result.now.entries ≡ entries_of (core_bodies (parser_rules self.now)) }
        ensures core { ∥ bodies_of result.now.core ≡ core_bodies (parser_rules self.now) ∥₁ }
    {
        self.engine.program()
    }

    /// Returns the span of a terminal in the grammar file: the byte offsets of its start and its end. Constant time.
    pub fn terminal_span(&self, terminal: u32) -> Span
        requires { terminal < length (extents_of_terminals (parser_rules self.now)) }
        ensures { slice_get (extents_of_terminals (parser_rules self.now)) terminal ≡ Some (extent result) }
    {
        self.engine.terminal_span(terminal)
    }

    /// Parses a prefix of a text by the rule that `options` names. Success, consumed length, tree and furthest failure
    /// are those of Ford's recognition relation for the grammar as written (Ford 2004, section 3.3). What the memo
    /// stores doesn't change them (Ford 2002).
    ///
    /// With a memo, the parse runs without it first, within 4,096 steps and 64 for each byte of the text. If these are
    /// not enough, it runs again with the memo. The steps of the answer are those of the run that gave it.
    ///
    /// Returns `NoSuchStart` first, then `TextTooLong`. Returns `StepLimit` only if more steps than `options.steps`
    /// are needed, and `Memory` if an allocation fails. Without a memo, or with one too small, the time may be
    /// exponential in the text's length. No native recursion.
    ///
    /// # Example
    ///
    /// ```
    /// let options = ParseOptions { start: None, memo: DEFAULT_MEMO, steps: None };
    /// let answer = parser.parse(alloc, b"aab", &options)?;
    /// match answer.outcome.result {
    ///     Parsed::Matched { end, tree } => println!("{end} bytes, {} nodes", tree.len()),
    ///     Parsed::Failed => println!("failed at {}", answer.outcome.far),
    /// }
    /// ```
    pub fn parse(
        &self,
        alloc: Global,
        text: &[u8],
        options: &ParseOptions<'_>,
    ) -> Result<Answer, ParseFault>
        ensures parse { IsParse None None (parser_rules self.now) text.now (start_named options.now)
            (options.now.memo ≡ 0) options.now.steps result }
    {
        self.engine.parse_selecting(alloc, text, options, None)
    }

    /// Parses as `parse` does, but in one run, and shows the tracer each call whose body runs. Without a memo these are
    /// the calls of Ford's record of the text, in order, each as often as it is made (Ford 2004, section 3.3). With one
    /// they are these calls as a set, whatever the memo answers. The steps of the answer are the steps of these bodies,
    /// and one more for the end of a match.
    ///
    /// The errors are those of `parse`. After `NoSuchStart` and `TextTooLong` the tracer is as it was. After
    /// `StepLimit` it has been shown the calls made so far: some of these calls, and without a memo the first of them.
    /// After `Memory` it has been shown some of these calls, or none.
    ///
    /// # Example
    ///
    /// ```
    /// let mut calls = ListWatch::new(alloc);
    /// let options = ParseOptions { start: None, memo: 0, steps: None };
    /// let answer = parser.trace(alloc, b"aab", &options, &mut calls)?;
    /// println!("{} calls", calls.pairs().len());
    /// ```
    pub fn trace<W: Watch>(
        &self,
        alloc: Global,
        text: &[u8],
        options: &ParseOptions<'_>,
        watch: &mut W,
    ) -> Result<Answer, ParseFault>
        ensures parse { IsParse None None (parser_rules self.now) text.now (start_named options.now)
            (options.now.memo ≡ 0) options.now.steps result }
        ensures traced { IfOk result (λ answer. IfSome (start_name (parser_rules self.now) (start_named options.now))
            (λ start. TracesCallsOf (parser_rules self.now) text.now start answer
            (GetsCalls W.records W.traced watch.old watch.new))) }
        ensures in_order { options.now.memo ≡ 0
            → OnOk result (IfSome (start_name (parser_rules self.now) (start_named options.now))
            (λ start. TracesCallsInOrder (parser_rules self.now) text.now start
            (GetsCalls W.records W.traced watch.old watch.new))) }
        ensures stopped { IsErrOf result ParseFault.StepLimit
            → IfSome (start_name (parser_rules self.now) (start_named options.now))
            (λ start. TracesCallsSoFar (parser_rules self.now) text.now start options.now.memo options.now.steps
            (GetsCalls W.records W.traced watch.old watch.new)) }
        ensures out_of_memory { IsErrOf result ParseFault.Memory
            → IfSome (start_name (parser_rules self.now) (start_named options.now))
            (λ start. TracesSomeCalls (parser_rules self.now) text.now start
            (GetsCalls W.records W.traced watch.old watch.new)) }
        ensures untraced { IsErrOf result ParseFault.NoSuchStart → watch.new ≡ watch.old }
        ensures untraced_long { IsErrOf result ParseFault.TextTooLong → watch.new ≡ watch.old }
    {
        self.engine.trace(alloc, text, options, watch)
    }
}
