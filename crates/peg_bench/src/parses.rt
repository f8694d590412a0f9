//! Parses a text file by a grammar file in one of three modes. Prints the steps and the microseconds of the parse alone.
use peg_machine::NoWatch;
use peg_parser::{Answer, DEFAULT_MEMO, ParseFault, ParseOptions, Parser};
use std::alloc::Global;
use std::time::Instant;
use std::{fs, io};

/// How a text is parsed.
#[derive(Clone, Copy)]
enum ParseMode {
    /// In one run without a memo.
    Plain,
    /// As `Parser::parse` does with the default memo: without it first, and then with it if that takes too many steps.
    Default,
    /// In one run with the default memo.
    Memo,
}

impl ParseMode {
    fn from_word(word: &str) -> ParseMode {
        match word {
            "plain" => ParseMode::Plain,
            "memo" => ParseMode::Memo,
            _ => ParseMode::Default,
        }
    }

    fn parse(self, alloc: Global, parser: &Parser, text: &[u8]) -> Result<Answer, ParseFault> {
        let memo = match self {
            ParseMode::Plain => 0,
            ParseMode::Default | ParseMode::Memo => DEFAULT_MEMO,
        };
        let options = ParseOptions {
            start: None,
            memo,
            steps: None,
        };
        match self {
            ParseMode::Plain | ParseMode::Default => parser.parse(alloc, text, &options),
            ParseMode::Memo => parser.trace(alloc, text, &options, &mut NoWatch),
        }
    }
}

pub(crate) fn run(
    rt: HostRuntime,
    alloc: Global,
    mode: &str,
    grammar: &str,
    text: &str,
) -> io::Result<()> {
    let grammar = fs::read(&rt, grammar)?;
    let text = fs::read(&rt, text)?;
    let Ok(parser) = Parser::from_file(alloc, grammar.as_slice()) else {
        return println!(rt; "refused");
    };
    let start = Instant::now(&rt)?;
    let Ok(answer) = ParseMode::from_word(mode).parse(alloc, &parser, text.as_slice()) else {
        return println!(rt; "no answer");
    };
    let time = start.elapsed(&rt)?.as_micros();
    println!(rt; "{} steps, {time} us", answer.steps)
}
