//! Parsing the command line arguments.
ghost use Rattle.std.specs.Prelude.{◌≡◌, ◌≢◌, ◌≤◌, ◌∷◌, ℕ, List, [], IfOk, IfSome, IsErr, None, OkIff, Some, map, option_map, string_bytes, codes, false, true};
ghost use Rattle.clap.specs.Matches.{found_of, first_value, one_text};
ghost use Rattle.clap.specs.Values.{kind_of};
ghost use Rattle.clap.specs.declared.parser.matches.Found.{Found};
ghost use Rattle.clap.specs.Simple.{subcommand_rows_of};
ghost use Rattle.clap.specs.Walk.{rows_of};
ghost use Rattle.peg_cli.specs.ErrorAnswers.{IsAnswerToError};
ghost use Rattle.peg_cli.specs.Mapping.{IsCommandOf, IsFlagAt, all_values, memo_or, number_at};
ghost use Rattle.peg_cli.specs.Numbers.{IsNumberIn, number_in};
ghost use Rattle.peg_cli.specs.Words.{IsAsking, IsLimit};

use crate::command_line::{MAX_LIMIT, MAX_MEMO, program};
use clap::error::ErrorKind;
use clap::{ArgMatches, Error};
use std::alloc::{AllocError, Global};
use thiserror::Error;

// The default capacity of the memo for `profile`: with no memo each call is counted.
const PROFILE_MEMO: u32 = 0;

// The same with `--coverage`: that of `parse`, since what texts use doesn't depend on it.
const COVERAGE_MEMO: u32 = 4096;

// The usage error for a profile of several texts.
const SEVERAL_TEXTS: &str = "\
error: without '--coverage', profile reads one text

For more information, try '--help'.
For this command: pegtool profile --help
";

// The usage error for a parse of several texts.
const SEVERAL_PARSED_TEXTS: &str = "\
error: without '--lines', parse reads one text

For more information, try '--help'.
For this command: pegtool parse --help
";

/// What the arguments request.
#[derive(Debug, PartialEq, Eq, Drop)]
pub enum Words {
    /// No arguments: parse standard input, which has a grammar file and a text in one input.
    Joined,
    /// Help; `text` is the help text.
    Help {
        text: String,
    },
    /// Print the outcomes of the rules in grammar file `g`.
    Table {
        g: String,
    },
    /// Check whether grammar file `g` is accepted.
    Check {
        g: String,
    },
    /// Print the code of grammar file `g`.
    Code {
        g: String,
    },
    /// Print the warnings about grammar file `g` for texts that are parsed from rule `start`. With `proved`, only those
    /// that are proved.
    Lint {
        g: String,
        start: Option<String>,
        proved: bool,
    },
    /// Print the warnings about grammar file `g` as messages for people. The other fields are those of `Lint`.
    LintMessages {
        g: String,
        start: Option<String>,
        proved: bool,
    },
    /// Print what the rules of grammar file `g` do in a parse of text file `t`. The other fields are those of
    /// `ParseOptions`.
    Profile {
        g: String,
        t: String,
        start: Option<String>,
        memo: u32,
        steps: Option<u64>,
    },
    /// Print which rules and alternatives of grammar file `g` match in none of the text files `texts`. With `prefix`, a
    /// text counts as a match if a prefix of it matches. The other fields are those of `ParseOptions`.
    Coverage {
        g: String,
        texts: Vec<String>,
        start: Option<String>,
        memo: u32,
        steps: Option<u64>,
        prefix: bool,
    },
    /// Print which rules and alternatives of grammar file `g` match in no record of the text files `texts`, or of standard
    /// input without `texts`. Records end at a zero byte with `null`, otherwise at LF; with `crlf`, a CR before the LF isn't
    /// part of the record. At most one of the two is given. The other fields are those of `Coverage`.
    RecordCoverage {
        g: String,
        texts: Vec<String>,
        null: bool,
        crlf: bool,
        start: Option<String>,
        memo: u32,
        steps: Option<u64>,
        prefix: bool,
    },
    /// Print where texts don't match grammar file `g`, as messages for people: first the text files `texts`, then those
    /// that file `files_from` lists; `-` is standard input. With `null`, names in that list end at a zero byte,
    /// otherwise at a line end. With `rules` each expected item has its rule, and with `terminals` none is named after
    /// it. With `quiet` nothing is printed. The other fields are those of `ParseOptions`.
    Explain {
        g: String,
        texts: Vec<String>,
        files_from: Option<String>,
        null: bool,
        start: Option<String>,
        memo: u32,
        steps: Option<u64>,
        rules: bool,
        terminals: bool,
        quiet: bool,
    },
    /// Print where the records of the text files `texts` don't match grammar file `g`, or those of standard input without
    /// `texts`, as messages for people. Records end as those of `Records`. There are at most `max_errors` messages for the
    /// records of a text, or one for each record that fails. The other fields are those of `Explain`.
    ExplainRecords {
        g: String,
        texts: Vec<String>,
        null: bool,
        crlf: bool,
        start: Option<String>,
        memo: u32,
        steps: Option<u64>,
        rules: bool,
        terminals: bool,
        quiet: bool,
        max_errors: Option<u64>,
    },
    /// Print which texts in the folders `folders` don't do by grammar file `g` what their names ask for, as messages
    /// for people, and how many there are. The other fields are those of `ParseOptions`.
    Test {
        g: String,
        folders: Vec<String>,
        start: Option<String>,
        memo: u32,
        steps: Option<u64>,
    },
    /// Parse text file `t` by grammar file `g`. At most one of `show` and `hide` is given; each is a list of rules. The
    /// other fields are those of `Command::Parse` and `ParseOptions`.
    Parse {
        g: String,
        t: String,
        start: Option<String>,
        memo: u32,
        steps: Option<u64>,
        all: bool,
        rows: bool,
        no_tree: bool,
        show: Option<String>,
        hide: Option<String>,
        text: bool,
    },
    /// Parse each record of the text files `texts` by grammar file `g`, or of standard input without `texts`. Records end
    /// at a zero byte with `null`, otherwise at LF; with `crlf`, a CR before the LF isn't part of the record. With `failed`
    /// only records that don't match are printed, with `matched` only those that do. At most one of `null` and `crlf` is
    /// given, and at most one of `failed` and `matched`. The other fields are those of `Parse`.
    Records {
        g: String,
        texts: Vec<String>,
        null: bool,
        crlf: bool,
        failed: bool,
        matched: bool,
        start: Option<String>,
        memo: u32,
        steps: Option<u64>,
        all: bool,
        rows: bool,
        no_tree: bool,
        show: Option<String>,
        hide: Option<String>,
        text: bool,
    },
}

/// Why the arguments are rejected.
#[derive(Debug, PartialEq, Eq, Drop, Error)]
pub enum WordsFault {
    /// The arguments are not a valid command line. `text` says what is wrong and how to get help.
    #[error("{text}")]
    Usage { text: String },
    /// An allocation failed.
    #[error("out of memory")]
    Memory,
}

impl From<AllocError> for WordsFault {
    ghost use Rattle.std.specs.Prelude.{◌≡◌};
    ghost use Rattle.peg_cli.specs.declared.words.WordsFault.TheVariants.{Memory};

    ghost from_gives = { λ _ fault. fault ≡ Memory };

    fn from(_error: AllocError) -> WordsFault {
        WordsFault::Memory
    }
}

/// Parses the arguments after the program's name. Returns `Joined` if there are none, `Help` if help is requested, and
/// the command otherwise. Returns `Usage` for invalid arguments and `Memory` if an allocation fails.
pub fn read_words(alloc: Global, words: &[String]) -> Result<Words, WordsFault>
    ensures joined { words.now ≡ [] → result ≡ Ok Words.Joined }
    ensures asking { words.now ≢ [] → IfOk result IsAsking }
{
    if words.is_empty() {
        return Ok(Words::Joined);
    }
    let program = program(alloc)?;
    match program.try_get_matches_from(words) {
        Ok(matches) => command_of(alloc, &matches),
        Err(error) => from_clap_error(alloc, words, &error),
    }
}

// The command of the subcommand that was found.
fn command_of(alloc: Global, matches: &ArgMatches<'_>) -> Result<Words, WordsFault>
    ensures asking { IfOk result IsAsking }
    ensures command { IfOk result (λ words. (name : List ℕ) × (found : Found)
        × (subcommand_rows_of matches.now ≡ Some (name, rows_of found)) × IsCommandOf name found words) }
{
    match matches.subcommand() {
        Some((name, words)) => named_command(alloc, name, words),
        None => Err(internal_usage_error(alloc)),
    }
}

// The command with this name and these arguments.
fn named_command(alloc: Global, name: &str, words: &ArgMatches<'_>) -> Result<Words, WordsFault>
    ensures asking { IfOk result IsAsking }
    ensures command { IfOk result (IsCommandOf name.now (found_of words.now)) }
{
    match name {
        "table" => Ok(Words::Table {
            g: file_name(alloc, words, "G")?,
        }),
        "check" => Ok(Words::Check {
            g: file_name(alloc, words, "G")?,
        }),
        "code" => Ok(Words::Code {
            g: file_name(alloc, words, "G")?,
        }),
        "lint" => lint_of(alloc, words),
        "profile" => profile_of(alloc, words),
        "explain" => explain_of(alloc, words),
        "test" => test_of(alloc, words),
        "parse" => parse_of(alloc, words),
        _ => Err(internal_usage_error(alloc)),
    }
}

fn lint_of(alloc: Global, matches: &ArgMatches<'_>) -> Result<Words, WordsFault>
    ensures asking { IfOk result IsAsking }
    ensures command { IfOk result (IsCommandOf (codes "lint") (found_of matches.now)) }
{
    if matches.get_flag("human") {
        return lint_messages_of(alloc, matches);
    }
    Ok(Words::Lint {
        g: file_name(alloc, matches, "G")?,
        start: optional_text(alloc, matches, "start")?,
        proved: matches.get_flag("proved"),
    })
}

// Warnings as messages for people.
fn lint_messages_of(alloc: Global, matches: &ArgMatches<'_>) -> Result<Words, WordsFault>
    ensures asking { IfOk result IsAsking }
    ensures command { IsFlagAt (found_of matches.now) (codes "human") true
        → IfOk result (IsCommandOf (codes "lint") (found_of matches.now)) }
{
    Ok(Words::LintMessages {
        g: file_name(alloc, matches, "G")?,
        start: optional_text(alloc, matches, "start")?,
        proved: matches.get_flag("proved"),
    })
}

fn profile_of(alloc: Global, matches: &ArgMatches<'_>) -> Result<Words, WordsFault>
    ensures asking { IfOk result IsAsking }
    ensures command { IfOk result (IsCommandOf (codes "profile") (found_of matches.now)) }
{
    if matches.get_flag("coverage") {
        return coverage_of(alloc, matches);
    }
    let g = file_name(alloc, matches, "G")?;
    let t = only_file_name(alloc, matches, "T", SEVERAL_TEXTS)?;
    let start = optional_text(alloc, matches, "start")?;
    let memo = memo_size_or(alloc, matches, PROFILE_MEMO)?;
    let steps = step_limit(alloc, matches)?;
    Ok(Words::Profile {
        g,
        t,
        start,
        memo,
        steps,
    })
}

fn coverage_of(alloc: Global, matches: &ArgMatches<'_>) -> Result<Words, WordsFault>
    ensures asking { IfOk result IsAsking }
    ensures command { IsFlagAt (found_of matches.now) (codes "coverage") true
        → IfOk result (IsCommandOf (codes "profile") (found_of matches.now)) }
{
    if !matches.get_flag("lines") {
        return text_coverage_of(alloc, matches);
    }
    record_coverage_of(alloc, matches)
}

// The coverage of texts.
fn text_coverage_of(alloc: Global, matches: &ArgMatches<'_>) -> Result<Words, WordsFault>
    ensures asking { IfOk result IsAsking }
    ensures command { IsFlagAt (found_of matches.now) (codes "coverage") true
        → IsFlagAt (found_of matches.now) (codes "lines") false
        → IfOk result (IsCommandOf (codes "profile") (found_of matches.now)) }
{
    let texts = file_names(alloc, matches, "T")?;
    Ok(Words::Coverage {
        g: file_name(alloc, matches, "G")?,
        texts,
        start: optional_text(alloc, matches, "start")?,
        memo: memo_size_or(alloc, matches, COVERAGE_MEMO)?,
        steps: step_limit(alloc, matches)?,
        prefix: matches.get_flag("prefix"),
    })
}

// The coverage of the records of texts.
fn record_coverage_of(alloc: Global, matches: &ArgMatches<'_>) -> Result<Words, WordsFault>
    ensures asking { IfOk result IsAsking }
    ensures command { IsFlagAt (found_of matches.now) (codes "coverage") true
        → IsFlagAt (found_of matches.now) (codes "lines") true
        → IfOk result (IsCommandOf (codes "profile") (found_of matches.now)) }
{
    Ok(Words::RecordCoverage {
        g: file_name(alloc, matches, "G")?,
        texts: file_names(alloc, matches, "T")?,
        null: matches.get_flag("null"),
        crlf: matches.get_flag("crlf"),
        start: optional_text(alloc, matches, "start")?,
        memo: memo_size_or(alloc, matches, COVERAGE_MEMO)?,
        steps: step_limit(alloc, matches)?,
        prefix: matches.get_flag("prefix"),
    })
}

fn explain_of(alloc: Global, matches: &ArgMatches<'_>) -> Result<Words, WordsFault>
    ensures asking { IfOk result IsAsking }
    ensures command { IfOk result (IsCommandOf (codes "explain") (found_of matches.now)) }
{
    let lines = matches.get_flag("lines");
    if lines {
        explain_records_of(alloc, matches)
    } else {
        explain_texts_of(alloc, matches)
    }
}

// An explanation of texts.
fn explain_texts_of(alloc: Global, matches: &ArgMatches<'_>) -> Result<Words, WordsFault>
    ensures asking { IfOk result IsAsking }
    ensures command { IsFlagAt (found_of matches.now) (codes "lines") false
        → IfOk result (IsCommandOf (codes "explain") (found_of matches.now)) }
{
    Ok(Words::Explain {
        g: file_name(alloc, matches, "G")?,
        texts: file_names(alloc, matches, "T")?,
        files_from: optional_text(alloc, matches, "files-from")?,
        null: matches.get_flag("null"),
        start: optional_text(alloc, matches, "start")?,
        memo: memo_size(alloc, matches)?,
        steps: step_limit(alloc, matches)?,
        rules: matches.get_flag("rules"),
        terminals: matches.get_flag("terminals"),
        quiet: matches.get_flag("quiet"),
    })
}

// An explanation of the records of texts.
fn explain_records_of(alloc: Global, matches: &ArgMatches<'_>) -> Result<Words, WordsFault>
    ensures asking { IfOk result IsAsking }
    ensures command { IsFlagAt (found_of matches.now) (codes "lines") true
        → IfOk result (IsCommandOf (codes "explain") (found_of matches.now)) }
{
    let rules = matches.get_flag("rules");
    Ok(Words::ExplainRecords {
        g: file_name(alloc, matches, "G")?,
        texts: file_names(alloc, matches, "T")?,
        null: matches.get_flag("null"),
        crlf: matches.get_flag("crlf"),
        start: optional_text(alloc, matches, "start")?,
        memo: memo_size(alloc, matches)?,
        steps: step_limit(alloc, matches)?,
        rules,
        terminals: matches.get_flag("terminals"),
        quiet: matches.get_flag("quiet"),
        max_errors: limit_at(alloc, matches, "max-errors")?,
    })
}

fn test_of(alloc: Global, matches: &ArgMatches<'_>) -> Result<Words, WordsFault>
    ensures asking { IfOk result IsAsking }
    ensures command { IfOk result (IsCommandOf (codes "test") (found_of matches.now)) }
{
    Ok(Words::Test {
        g: file_name(alloc, matches, "G")?,
        folders: file_names(alloc, matches, "FOLDER")?,
        start: optional_text(alloc, matches, "start")?,
        memo: memo_size(alloc, matches)?,
        steps: step_limit(alloc, matches)?,
    })
}

fn parse_of(alloc: Global, matches: &ArgMatches<'_>) -> Result<Words, WordsFault>
    ensures asking { IfOk result IsAsking }
    ensures command { IfOk result (IsCommandOf (codes "parse") (found_of matches.now)) }
{
    if matches.get_flag("lines") {
        records_of(alloc, matches)
    } else {
        text_of(alloc, matches)
    }
}

// A parse of one text.
fn text_of(alloc: Global, matches: &ArgMatches<'_>) -> Result<Words, WordsFault>
    ensures asking { IfOk result IsAsking }
    ensures command { IsFlagAt (found_of matches.now) (codes "lines") false
        → IfOk result (IsCommandOf (codes "parse") (found_of matches.now)) }
{
    Ok(Words::Parse {
        g: file_name(alloc, matches, "G")?,
        t: only_file_name(alloc, matches, "T", SEVERAL_PARSED_TEXTS)?,
        start: optional_text(alloc, matches, "start")?,
        memo: memo_size(alloc, matches)?,
        steps: step_limit(alloc, matches)?,
        all: matches.get_flag("all"),
        rows: matches.get_flag("rows"),
        no_tree: matches.get_flag("no-tree"),
        show: optional_text(alloc, matches, "show")?,
        hide: optional_text(alloc, matches, "hide")?,
        text: matches.get_flag("text"),
    })
}

// A parse of the records of texts.
fn records_of(alloc: Global, matches: &ArgMatches<'_>) -> Result<Words, WordsFault>
    ensures asking { IfOk result IsAsking }
    ensures command { IsFlagAt (found_of matches.now) (codes "lines") true
        → IfOk result (IsCommandOf (codes "parse") (found_of matches.now)) }
{
    Ok(Words::Records {
        g: file_name(alloc, matches, "G")?,
        texts: file_names(alloc, matches, "T")?,
        null: matches.get_flag("null"),
        crlf: matches.get_flag("crlf"),
        failed: matches.get_flag("failed"),
        matched: matches.get_flag("matched"),
        start: optional_text(alloc, matches, "start")?,
        memo: memo_size(alloc, matches)?,
        steps: step_limit(alloc, matches)?,
        all: matches.get_flag("all"),
        rows: matches.get_flag("rows"),
        no_tree: matches.get_flag("no-tree"),
        show: optional_text(alloc, matches, "show")?,
        hide: optional_text(alloc, matches, "hide")?,
        text: matches.get_flag("text"),
    })
}

fn file_name(alloc: Global, matches: &ArgMatches<'_>, id: &str) -> Result<String, WordsFault>
    ensures { IfOk result (λ name. first_value (found_of matches.now) id.now ≡ Some (string_bytes name)) }
{
    match matches.get_str(id) {
        Some(name) => Ok(String::from_str(alloc, name)?),
        None => Err(internal_usage_error(alloc)),
    }
}

// The value of an argument that may have several; a usage error with this text if it has.
fn only_file_name(
    alloc: Global,
    matches: &ArgMatches<'_>,
    id: &str,
    several: &str,
) -> Result<String, WordsFault>
    ensures { IfOk result (λ name. all_values (found_of matches.now) id.now ≡ string_bytes name ∷ []) }
{
    match matches.get_strs(id) {
        Some([name]) => Ok(String::from_str(alloc, name)?),
        _ => Err(usage_error(alloc, several)),
    }
}

// The values of an argument in the order of the command line; none if it is not given.
fn file_names(alloc: Global, matches: &ArgMatches<'_>, id: &str) -> Result<Vec<String>, AllocError>
    ensures { IfOk result (λ names. map string_bytes names.items ≡ all_values (found_of matches.now) id.now) }
{
    match matches.get_strs(id) {
        Some(names) => copies_of(alloc, names),
        None => Ok(Vec::new(alloc)),
    }
}

fn copies_of(alloc: Global, texts: &[&str]) -> Result<Vec<String>, AllocError>
    ensures { IfOk result (λ copies. map string_bytes copies.items ≡ map (λ text. text.now) texts.now) }
{
    let mut copies = Vec::new(alloc);
    for text in texts {
        copies.push(String::from_str(alloc, text)?)?;
    }
    Ok(copies)
}

// The text of an option, if it is given.
fn optional_text(
    alloc: Global,
    matches: &ArgMatches<'_>,
    id: &str,
) -> Result<Option<String>, AllocError>
    ensures { IfOk result (λ text. first_value (found_of matches.now) id.now ≡ option_map string_bytes text) }
{
    match matches.get_str(id) {
        Some(text) => Ok(Some(String::from_str(alloc, text)?)),
        None => Ok(None),
    }
}

// The capacity of the memo. It is refused if its text is no number, or one over the limit. The argument parser has
// checked this; the test here is for the contract.
fn memo_size(alloc: Global, matches: &ArgMatches<'_>) -> Result<u32, WordsFault>
    ensures range { IfOk result (λ memo. memo ≤ 1000000) }
    ensures number { IfOk result (λ memo. number_at (found_of matches.now) (codes "memo") ≡ Some memo) }
    ensures absent { one_text (found_of matches.now) (codes "memo") ≡ None → IsErr result }
    ensures given { (text : List ℕ) → one_text (found_of matches.now) (codes "memo") ≡ Some text
        → OkIff result (IsNumberIn 0 1000000 text) (number_in text) }
{
    match matches.try_get_one::<u32>("memo") {
        Ok(Some(memo)) if memo <= MAX_MEMO => Ok(memo),
        _ => Err(internal_usage_error(alloc)),
    }
}

// The capacity of the memo, or this default where none is given.
fn memo_size_or(alloc: Global, matches: &ArgMatches<'_>, default: u32) -> Result<u32, WordsFault>
    requires { default ≤ 1000000 }
    ensures range { IfOk result (λ memo. memo ≤ 1000000) }
    ensures number { IfOk result (λ memo. memo ≡ memo_or (found_of matches.now) default) }
    ensures absent { one_text (found_of matches.now) (codes "memo") ≡ None → result ≡ Ok default }
    ensures given { (text : List ℕ) → one_text (found_of matches.now) (codes "memo") ≡ Some text
        → OkIff result (IsNumberIn 0 1000000 text) (number_in text) }
{
    match matches.try_get_one::<u32>("memo") {
        Ok(None) => Ok(default),
        Ok(Some(memo)) if memo <= MAX_MEMO => Ok(memo),
        _ => Err(internal_usage_error(alloc)),
    }
}

// The limit of steps, if one is given.
fn step_limit(alloc: Global, matches: &ArgMatches<'_>) -> Result<Option<u64>, WordsFault>
    ensures range { IfOk result IsLimit }
    ensures number { IfOk result (λ steps. number_at (found_of matches.now) (codes "steps") ≡ steps) }
    ensures absent { one_text (found_of matches.now) (codes "steps") ≡ None → result ≡ Ok None }
    ensures given { (text : List ℕ) → one_text (found_of matches.now) (codes "steps") ≡ Some text
        → OkIff result (IsNumberIn 1 1000000000000 text) (Some (number_in text)) }
{
    limit_at(alloc, matches, "steps")
}

// The limit that an option gives, if it is given. The argument parser has checked the range; the tests here are for the
// contract.
fn limit_at(alloc: Global, matches: &ArgMatches<'_>, id: &str) -> Result<Option<u64>, WordsFault>
    ensures range { IfOk result IsLimit }
    ensures number { IfOk result (λ limit. number_at (found_of matches.now) id.now ≡ limit) }
    ensures absent { one_text (found_of matches.now) id.now ≡ None → result ≡ Ok None }
    ensures given { (text : List ℕ) → one_text (found_of matches.now) id.now ≡ Some text
        → OkIff result (IsNumberIn 1 1000000000000 text) (Some (number_in text)) }
{
    match matches.try_get_one::<u64>(id) {
        Ok(None) => Ok(None),
        Ok(Some(0)) => Err(internal_usage_error(alloc)),
        Ok(Some(limit)) if limit <= MAX_LIMIT => Ok(Some(limit)),
        _ => Err(internal_usage_error(alloc)),
    }
}

// An internal usage error. The argument parser reports missing arguments itself, so no arguments should lead here.
fn internal_usage_error(alloc: Global) -> WordsFault {
    usage_error(
        alloc,
        "error: a word is missing\n\nFor more information, try '--help'.\n",
    )
}

// A usage error with this text.
fn usage_error(alloc: Global, text: &str) -> WordsFault {
    match String::from_str(alloc, text) {
        Ok(text) => WordsFault::Usage { text },
        Err(_) => WordsFault::Memory,
    }
}

// The help text, or the usage error with a hint on how to continue. Help is what the arguments requested alone, and not
// what the argument parser shows where something is missing.
fn from_clap_error(alloc: Global, words: &[String], error: &Error) -> Result<Words, WordsFault>
    ensures asking { IfOk result IsAsking }
    ensures kind { IsAnswerToError (kind_of error.now) result }
{
    if error.kind() == ErrorKind::OutOfMemory {
        return Err(WordsFault::Memory);
    }
    let mut text = error.to_string(alloc)?;
    match error.kind() {
        ErrorKind::DisplayHelp => Ok(Words::Help { text }),
        _ => {
            text.push_str(usage_hint(words))?;
            Err(WordsFault::Usage { text })
        }
    }
}

// The hint after a usage error: the help of the command that was given, or how to parse a text.
fn usage_hint(words: &[String]) -> &'static str {
    match words.first() {
        Some(word) => hint_for(word.as_str()),
        None => hint_for(""),
    }
}

fn hint_for(first: &str) -> &'static str {
    match first {
        "check" => "For this command: pegtool check --help\n",
        "table" => "For this command: pegtool table --help\n",
        "code" => "For this command: pegtool code --help\n",
        "lint" => "For this command: pegtool lint --help\n",
        "profile" => "For this command: pegtool profile --help\n",
        "explain" => "For this command: pegtool explain --help\n",
        "test" => "For this command: pegtool test --help\n",
        "parse" => "For this command: pegtool parse --help\n",
        _ => "To parse a text T by a grammar file G: pegtool parse G T\n",
    }
}
