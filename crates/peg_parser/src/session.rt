//! Parses of many texts by one parser.
ghost use Rattle.std.specs.Prelude.{◌≡◌};
ghost use Rattle.std.specs.Coded.{Coded-set};
ghost use Rattle.peg_code.specs.CompiledCode.{compiled_code};

use crate::engine::Engine;
use crate::options::ParseOptions;
use crate::parser::ParseFault;
use peg_machine::{Answer, Runner};
use std::alloc::Global;

/// Parses of many texts by one parser. What the machine has computed for one text serves the later ones, so many short
/// texts take about the time of one long text. `ShownParser::session` makes one.
#[derive(Drop)]
pub struct Session<'a> {
    engine: &'a Engine,
    runner: Runner<'a>,
    pub ghost program: { runner.program.now ≡ engine.now.program } by { Coded-set compiled_code runner.program.now engine.now.program },
}

impl<'a> Session<'a> {
    ghost use Rattle.std.specs.Prelude.{None};
    ghost use Rattle.peg_parser.specs.Engine.{engine_rules, shown_in};
    ghost use Rattle.peg_parser.specs.ParseContract.{IsParse};
    ghost use Rattle.peg_parser.specs.Parser.{start_named};
    ghost use Rattle.peg_parser.specs.Sessions.{session_rules, session_shown};

    // The session of an engine, before its first text.
    pub(crate) fn new(alloc: Global, engine: &'a Engine) -> Session<'a>
        ensures rules { session_rules result ≡ engine_rules engine.now }
        ensures shown { session_shown result ≡ shown_in engine.now }
    {
        let runner = engine.runner(alloc);
        Session { engine, runner }
    }

    /// Parses a prefix of a text as `ShownParser::parse` does.
    ///
    /// # Example
    ///
    /// ```
    /// let parser = Parser::from_file(alloc, b"S <- A A  A <- 'a'")?.showing(None);
    /// let mut session = parser.session(alloc);
    /// let options = ParseOptions { start: None, memo: DEFAULT_MEMO, steps: None };
    /// for line in lines {
    ///     let answer = session.parse(alloc, line, &options)?;
    /// }
    /// ```
    pub fn parse(
        &mut self,
        alloc: Global,
        text: &[u8],
        options: &ParseOptions<'_>,
    ) -> Result<Answer, ParseFault>
        ensures parse { IsParse (session_shown self.old) None (session_rules self.old) text.now
            (start_named options.now) (options.now.memo ≡ 0) options.now.steps result }
        ensures rules { session_rules self.new ≡ session_rules self.old }
        ensures shown { session_shown self.new ≡ session_shown self.old }
    {
        self.engine
            .parse_next(alloc, &mut self.runner, text, options, None)
    }
}
