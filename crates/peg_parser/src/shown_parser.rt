//! Parsers whose trees have the nodes of some rules.
ghost use Rattle.std.specs.Prelude.{◌≡◌, IfOk, IfSome, IsErrOf, None, OnOk, Some};
ghost use Rattle.std.specs.List.Sorted.{IsStrictlyIncreasing};
ghost use Rattle.peg_grammar.specs.GrammarRules.{rules_in};
ghost use Rattle.peg_machine.specs.Traced.{GetsCalls};
ghost use Rattle.peg_parser.specs.Calls.{TracesCallsInOrder, TracesCallsOf, TracesCallsSoFar, TracesSomeCalls};
ghost use Rattle.peg_parser.specs.Engine.{engine_rules, rules_shown, shown_in, shown_parser_rules};
ghost use Rattle.peg_parser.specs.ParseContract.{IsParse};
ghost use Rattle.peg_parser.specs.Parser.{parser_rules, start_named};
ghost use Rattle.peg_parser.specs.Sessions.{IsSessionOf};
ghost use Rattle.peg_semantics.specs.Starts.{start_name};

use crate::engine::Engine;
use crate::options::ParseOptions;
use crate::parser::{ParseFault, Parser};
use crate::session::Session;
use peg_grammar::Grammar;
use peg_machine::{Answer, Watch};
use std::alloc::Global;

/// The parser of an accepted grammar file that shows some rules: its trees have the root and the nodes of these rules.
/// The children of another node take its place. `Parser::showing` makes one.
#[derive(Drop)]
pub struct ShownParser {
    engine: Engine,
}

impl ShownParser {
    // The parser of an engine.
    pub(crate) fn new(engine: Engine) -> ShownParser
        ensures rules { shown_parser_rules result ≡ engine_rules engine }
        ensures shown { rules_shown result ≡ shown_in engine }
    {
        ShownParser { engine }
    }

    /// Returns the parser of the same grammar that shows all rules. Constant time.
    pub fn into_parser(self) -> Parser
        ensures { parser_rules result ≡ shown_parser_rules self }
    {
        Parser::from_engine(self.engine.showing(None))
    }

    /// Returns the grammar of the file. Constant time.
    pub fn grammar(&self) -> &Grammar
        ensures { rules_in result.now ≡ shown_parser_rules self.now }
    {
        self.engine.grammar()
    }

    /// Returns a session that parses many texts, one after the other, as `parse` does. Constant time.
    pub fn session(&self, alloc: Global) -> Session<'_>
        ensures { IsSessionOf self.now result }
    {
        Session::new(alloc, &self.engine)
    }

    /// Parses a prefix of a text as `Parser::parse` does. The tree is the selection of the shown rules from the tree of
    /// Ford's recognition relation (Ford 2004, section 3.3). Nodes of other rules aren't made, so they cost no memory.
    /// Success, consumed length, furthest failure, steps and errors are those of `Parser::parse`.
    ///
    /// # Example
    ///
    /// ```
    /// let parser = Parser::from_file(alloc, b"S <- A A  A <- 'a'")?;
    /// let shown = parser.showing(Some(RuleSet::none(alloc, 2)?));
    /// let options = ParseOptions { start: None, memo: DEFAULT_MEMO, steps: None };
    /// let answer = shown.parse(alloc, b"aa", &options)?;
    /// // The tree has the root alone.
    /// ```
    pub fn parse(
        &self,
        alloc: Global,
        text: &[u8],
        options: &ParseOptions<'_>,
    ) -> Result<Answer, ParseFault>
        ensures parse { IsParse (rules_shown self.now) None (shown_parser_rules self.now) text.now
            (start_named options.now) (options.now.memo ≡ 0) options.now.steps result }
    {
        self.engine.parse_selecting(alloc, text, options, None)
    }

    /// Parses as `Parser::parse_among` does, with the furthest failure of the listed terminals alone. The tree is that
    /// of `parse`. The list must ascend.
    pub fn parse_among(
        &self,
        alloc: Global,
        text: &[u8],
        options: &ParseOptions<'_>,
        terminals: &[u32],
    ) -> Result<Answer, ParseFault>
        requires { IsStrictlyIncreasing terminals.now }
        ensures parse { IsParse (rules_shown self.now) (Some terminals.now) (shown_parser_rules self.now) text.now
            (start_named options.now) (options.now.memo ≡ 0) options.now.steps result }
    {
        self.engine
            .parse_selecting(alloc, text, options, Some(terminals))
    }

    /// Parses in one run, and shows the tracer each call whose body runs, as `Parser::trace` does. The calls are those
    /// of all rules, and the tree is that of `parse`.
    pub fn trace<W: Watch>(
        &self,
        alloc: Global,
        text: &[u8],
        options: &ParseOptions<'_>,
        watch: &mut W,
    ) -> Result<Answer, ParseFault>
        ensures parse { IsParse (rules_shown self.now) None (shown_parser_rules self.now) text.now
            (start_named options.now) (options.now.memo ≡ 0) options.now.steps result }
        ensures traced { IfOk result (λ answer.
            IfSome (start_name (shown_parser_rules self.now) (start_named options.now))
            (λ start. TracesCallsOf (shown_parser_rules self.now) text.now start answer
            (GetsCalls W.records W.traced watch.old watch.new))) }
        ensures in_order { options.now.memo ≡ 0
            → OnOk result (IfSome (start_name (shown_parser_rules self.now) (start_named options.now))
            (λ start. TracesCallsInOrder (shown_parser_rules self.now) text.now start
            (GetsCalls W.records W.traced watch.old watch.new))) }
        ensures stopped { IsErrOf result ParseFault.StepLimit
            → IfSome (start_name (shown_parser_rules self.now) (start_named options.now))
            (λ start. TracesCallsSoFar (shown_parser_rules self.now) text.now start options.now.memo options.now.steps
            (GetsCalls W.records W.traced watch.old watch.new)) }
        ensures out_of_memory { IsErrOf result ParseFault.Memory
            → IfSome (start_name (shown_parser_rules self.now) (start_named options.now))
            (λ start. TracesSomeCalls (shown_parser_rules self.now) text.now start
            (GetsCalls W.records W.traced watch.old watch.new)) }
        ensures untraced { IsErrOf result ParseFault.NoSuchStart → watch.new ≡ watch.old }
        ensures untraced_long { IsErrOf result ParseFault.TextTooLong → watch.new ≡ watch.old }
    {
        self.engine.trace(alloc, text, options, watch)
    }
}
