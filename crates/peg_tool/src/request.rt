//! What the arguments of the program request.
ghost use Rattle.std.specs.Prelude.{◌≡◌, false, map, option_map, string_bytes};
ghost use Rattle.peg_explain.specs.Styles.{style_of};
ghost use Rattle.peg_lint.specs.FileWarnings.{selection_of};
ghost use Rattle.peg_parser.specs.Parser.{start_named};
ghost use Rattle.peg_replies.specs.Commands.{task_of};
ghost use Rattle.peg_tool.specs.Requests.{CoverRequest, FileRequest, IsExplainRequest, LintRequest, TestRequest, end_of, filter_of, needed_of, requested};
ghost use Rattle.peg_replies.specs.Task.{LintTask};
ghost use Rattle.peg_tool.specs.WordRequests.{IsExplainRecordsWords, IsParseWords, IsRecordCoverageWords, IsRecordsWords, request_of};

use crate::records::RecordsParse;
use peg_cli::Words;
use peg_coverage::RequiredMatch;
use peg_coverage_files::CoverQuery;
use peg_explain_files::{ItemStyle, NameEnd, Printing, Query};
use peg_explain_records::ExplainRecordsQuery;
use peg_json::TreeForm;
use peg_lint::Selection;
use peg_lint_files::LintQuery;
use peg_parser::ParseOptions;
use peg_record_files::{RecordEnd, RecordFilter, RecordsQuery};
use peg_replies::{Command, Nodes, TreePrinting};
use peg_test_files::TestQuery;

/// What the arguments of the program request.
#[derive(Clone, Copy, Debug, PartialEq, Eq)]
pub enum Request<'a> {
    /// Parses a text by a grammar file, both from one input, with the default options.
    Joined,
    /// Prints a help text.
    Help {
        text: &'a str,
    },
    /// Runs a command on the grammar file with name `g`. The command reads no text.
    OnFile {
        g: &'a str,
        command: Command<'a>,
    },
    /// Prints the warnings about a grammar file as messages for people.
    LintMessages {
        query: LintQuery<'a>,
    },
    /// Runs a command on the grammar file with name `g` and the text file with name `t`.
    OnFiles {
        g: &'a str,
        t: &'a str,
        command: Command<'a>,
    },
    /// Prints what the text files with the names `texts` use of the grammar file with name `g`.
    Cover {
        g: &'a str,
        texts: &'a [String],
        options: ParseOptions<'a>,
        needed: RequiredMatch,
    },
    /// Prints what the records of texts use of the grammar file with name `g`.
    CoverRecords {
        g: &'a str,
        query: CoverQuery<'a>,
    },
    /// Explains where texts don't match a grammar file.
    Explain {
        query: Query<'a>,
        printing: Printing,
    },
    /// Explains where the records of texts don't match a grammar file.
    ExplainRecords {
        query: ExplainRecordsQuery<'a>,
    },
    /// Tests the texts in folders by a grammar file.
    Test {
        query: TestQuery<'a>,
    },
    /// Parses each record of texts by the grammar file with name `g`.
    Records {
        g: &'a str,
        parse: RecordsParse<'a>,
    },
}

impl<'a> Request<'a> {
    /// Returns what these arguments request: which command, on which files, with which options. Constant time.
    pub fn from_words(words: &'a Words) -> Request<'a>
        ensures { request_of result ≡ requested words.now }
    {
        match words {
            Words::Joined => Request::Joined,
            Words::Help { text } => Request::Help { text },
            Words::Table { g } => request_on_file(g, Command::Table),
            Words::Check { g } => request_on_file(g, Command::Check),
            Words::Code { g } => request_on_file(g, Command::Code),
            Words::Lint { g, start, proved } => request_lint(g, start.as_deref(), *proved),
            Words::LintMessages { g, start, proved } => {
                request_messages(g, start.as_deref(), *proved)
            }
            Words::Profile {
                g,
                t,
                start,
                memo,
                steps,
            } => {
                let (start, memo, steps) = (start.as_deref(), *memo, *steps);
                let options = ParseOptions { start, memo, steps };
                let command = Command::Profile { options };
                Request::OnFiles { g, t, command }
            }
            Words::Coverage {
                g,
                texts,
                start,
                memo,
                steps,
                prefix,
            } => {
                let (start, memo, steps) = (start.as_deref(), *memo, *steps);
                let options = ParseOptions { start, memo, steps };
                request_coverage(g, texts, options, *prefix)
            }
            Words::RecordCoverage { .. } => request_record_coverage(words),
            Words::Explain { .. } => request_explanation(words),
            Words::ExplainRecords { .. } => request_explained_records(words),
            Words::Test {
                g,
                folders,
                start,
                memo,
                steps,
            } => {
                let (start, memo, steps) = (start.as_deref(), *memo, *steps);
                let options = ParseOptions { start, memo, steps };
                request_test(g, folders, options)
            }
            Words::Parse { .. } => request_parse(words),
            Words::Records { .. } => request_records(words),
        }
    }
}

// Requests a command on the grammar file with this name.
fn request_on_file<'a>(g: &'a str, command: Command<'a>) -> Request<'a>
    ensures { request_of result ≡ FileRequest (task_of command.entry) g.now }
{
    Request::OnFile { g, command }
}

// Requests the warnings about the grammar file with this name, all or only the proved ones.
fn request_lint<'a>(g: &'a str, start: Option<&'a str>, proved: bool) -> Request<'a>
    ensures { request_of result
        ≡ FileRequest (LintTask (option_map (λ name. name.now) start.entry) (selection_of proved)) g.now }
{
    let selection = Selection::from_proved(proved);
    request_on_file(g, Command::Lint { start, selection })
}

// Requests the same warnings as messages for people.
fn request_messages<'a>(g: &'a str, start: Option<&'a str>, proved: bool) -> Request<'a>
    ensures { request_of result ≡ LintRequest record {
      grammar = g.now;
      start = option_map (λ name. name.now) start.entry;
      selection = selection_of proved;
    } }
{
    let query = LintQuery {
        grammar: g,
        start,
        selection: Selection::from_proved(proved),
    };
    Request::LintMessages { query }
}

// Requests what the texts with these names use of a grammar file, where whole texts or prefixes have to match.
fn request_coverage<'a>(
    g: &'a str,
    texts: &'a [String],
    options: ParseOptions<'a>,
    prefix: bool,
) -> Request<'a>
    ensures { request_of result ≡ CoverRequest (start_named options.entry) options.entry.memo options.entry.steps
        (needed_of prefix) g.now (map string_bytes texts.now) }
{
    Request::Cover {
        g,
        texts,
        options,
        needed: required_match(prefix),
    }
}

// Requests what the records of texts use of a grammar file.
fn request_record_coverage(words: &Words) -> Request<'_>
    requires { IsRecordCoverageWords words.now }
    ensures { request_of result ≡ requested words.now }
{
    let Words::RecordCoverage {
        g,
        texts,
        null,
        crlf,
        start,
        memo,
        steps,
        prefix,
    } = words
    else {
        unreachable!()
    };
    let (start, memo, steps) = (start.as_deref(), *memo, *steps);
    let query = CoverQuery {
        texts,
        end: record_end(*null, *crlf),
        options: ParseOptions { start, memo, steps },
        needed: required_match(*prefix),
    };
    Request::CoverRecords { g, query }
}

// How much of a text has to match.
fn required_match(prefix: bool) -> RequiredMatch
    ensures { result ≡ needed_of prefix }
{
    if prefix {
        RequiredMatch::Prefix
    } else {
        RequiredMatch::Whole
    }
}

// Requests an explanation.
fn request_explanation(words: &Words) -> Request<'_>
    requires { IsExplainRequest (requested words.now) }
    ensures { request_of result ≡ requested words.now }
{
    let Words::Explain {
        g,
        texts,
        files_from,
        null,
        start,
        memo,
        steps,
        rules,
        terminals,
        quiet,
    } = words
    else {
        unreachable!()
    };
    let (start, memo, steps) = (start.as_deref(), *memo, *steps);
    let query = Query {
        grammar: g,
        texts,
        list: files_from.as_deref(),
        end: NameEnd::from_null(*null),
        options: ParseOptions { start, memo, steps },
        style: ItemStyle::from_flags(*rules, *terminals),
    };
    let printing = Printing::from_quiet(*quiet);
    Request::Explain { query, printing }
}

// Requests an explanation of records.
fn request_explained_records(words: &Words) -> Request<'_>
    requires { IsExplainRecordsWords words.now }
    ensures { request_of result ≡ requested words.now }
{
    let Words::ExplainRecords {
        g,
        texts,
        null,
        crlf,
        start,
        memo,
        steps,
        rules,
        terminals,
        quiet,
        max_errors,
    } = words
    else {
        unreachable!()
    };
    let (start, memo, steps) = (start.as_deref(), *memo, *steps);
    let query = ExplainRecordsQuery {
        grammar: g,
        texts,
        end: record_end(*null, *crlf),
        options: ParseOptions { start, memo, steps },
        style: ItemStyle::from_flags(*rules, *terminals),
        printing: Printing::from_quiet(*quiet),
        max_errors: *max_errors,
    };
    Request::ExplainRecords { query }
}

// Requests a test of the texts in these folders.
fn request_test<'a>(g: &'a str, folders: &'a [String], options: ParseOptions<'a>) -> Request<'a>
    ensures { request_of result ≡ TestRequest record {
      grammar = g.now;
      folders = map string_bytes folders.now;
      start = start_named options.entry;
      memo = options.entry.memo;
      steps = options.entry.steps;
      style = style_of false false;
    } }
{
    let query = TestQuery {
        grammar: g,
        folders,
        options,
        style: ItemStyle::from_flags(false, false),
    };
    Request::Test { query }
}

// Requests a parse.
fn request_parse(words: &Words) -> Request<'_>
    requires { IsParseWords words.now }
    ensures { request_of result ≡ requested words.now }
{
    let Words::Parse {
        g,
        t,
        start,
        memo,
        steps,
        all,
        rows,
        no_tree,
        show,
        hide,
        text,
    } = words
    else {
        unreachable!()
    };
    let (from, memo, steps) = (start.as_deref(), *memo, *steps);
    let options = ParseOptions {
        start: from,
        memo,
        steps,
    };
    let command = Command::Parse {
        options,
        all: *all,
        rows: *rows,
        no_tree: *no_tree,
        nodes: Nodes::from_options(show.as_deref(), hide.as_deref()),
        text: *text,
    };
    Request::OnFiles { g, t, command }
}

// Requests a parse of records.
fn request_records(words: &Words) -> Request<'_>
    requires { IsRecordsWords words.now }
    ensures { request_of result ≡ requested words.now }
{
    let Words::Records {
        g,
        texts,
        null,
        crlf,
        failed,
        matched,
        start,
        memo,
        steps,
        all,
        rows,
        no_tree,
        show,
        hide,
        text,
    } = words
    else {
        unreachable!()
    };
    let (start, memo, steps) = (start.as_deref(), *memo, *steps);
    let parse = RecordsParse {
        options: ParseOptions { start, memo, steps },
        printing: TreePrinting {
            all: *all,
            form: TreeForm::from_options(*rows, *no_tree),
            nodes: Nodes::from_options(show.as_deref(), hide.as_deref()),
            with_bytes: *text,
        },
        query: RecordsQuery {
            texts,
            end: record_end(*null, *crlf),
            filter: record_filter(*failed, *matched),
        },
    };
    Request::Records { g, parse }
}

// How records end.
fn record_end(null: bool, crlf: bool) -> RecordEnd
    ensures { result ≡ end_of null crlf }
{
    match (null, crlf) {
        (true, _) => RecordEnd::Zero,
        (false, true) => RecordEnd::CrLf,
        (false, false) => RecordEnd::Line,
    }
}

// Which records have a line.
fn record_filter(failed: bool, matched: bool) -> RecordFilter
    ensures { result ≡ filter_of failed matched }
{
    match (failed, matched) {
        (true, _) => RecordFilter::Failed,
        (false, true) => RecordFilter::Matched,
        (false, false) => RecordFilter::All,
    }
}
