//! The command line definition: commands, arguments and help texts.
use clap::{Arg, ArgAction, Command, value_parser};
use std::alloc::{AllocError, Global};

/// The largest value of `--memo`.
pub(crate) const MAX_MEMO: u32 = 1_000_000;

// The default value of `--memo` for `parse`, `explain` and `test`.
const DEFAULT_MEMO: &str = "4096";

/// The largest value of `--steps` and of `--max-errors`.
pub(crate) const MAX_LIMIT: u64 = 1_000_000_000_000;

/// Builds the definition of the command line.
pub(crate) fn program<'a>(alloc: Global) -> Result<Command<'a>, AllocError> {
    let program = Command::new(alloc, "pegtool")
        .about("Parses texts by parsing expression grammars (Ford, POPL 2004)")
        .after_help(PROGRAM_NOTES)
        .no_binary_name(true)
        .subcommand_required(true)
        .disable_help_subcommand(true);
    let program = with_grammar_commands(alloc, program)?;
    with_text_commands(alloc, program)?.bin_name("pegtool")
}

// Adds the commands that read no text.
fn with_grammar_commands<'a>(
    alloc: Global,
    program: Command<'a>,
) -> Result<Command<'a>, AllocError> {
    program
        .subcommand(check(alloc)?)?
        .subcommand(table(alloc)?)?
        .subcommand(code(alloc)?)?
        .subcommand(lint(alloc)?)
}

// Adds the commands that read texts.
fn with_text_commands<'a>(alloc: Global, program: Command<'a>) -> Result<Command<'a>, AllocError> {
    program
        .subcommand(profile(alloc)?)?
        .subcommand(explain(alloc)?)?
        .subcommand(test(alloc)?)?
        .subcommand(parse(alloc)?)
}

fn check<'a>(alloc: Global) -> Result<Command<'a>, AllocError> {
    Command::new(alloc, "check")
        .about("Checks that a grammar is well-formed, or reports why it is refused and where")
        .after_help(CHECK_NOTES)
        .arg(grammar_file(alloc))
}

fn table<'a>(alloc: Global) -> Result<Command<'a>, AllocError> {
    Command::new(alloc, "table")
        .about(
            "Prints for each rule whether it can match the empty string, match a byte or more, and fail",
        )
        .after_help(TABLE_NOTES)
        .arg(grammar_file(alloc))
}

fn code<'a>(alloc: Global) -> Result<Command<'a>, AllocError> {
    Command::new(alloc, "code")
        .about("Prints the instructions that the parsing machine runs for a grammar")
        .after_help(CODE_NOTES)
        .arg(grammar_file(alloc))
}

fn lint<'a>(alloc: Global) -> Result<Command<'a>, AllocError> {
    Command::new(alloc, "lint")
        .about("Prints warnings about a grammar: proved ones, and habits of other notations")
        .after_help(LINT_NOTES)
        .arg(grammar_file(alloc))?
        .arg(start_option(alloc))?
        .arg(flag(
            alloc,
            "proved",
            "Prints only proved warnings, without habits of other notations",
        ))?
        .arg(flag(
            alloc,
            "human",
            "Prints a message for each warning, with its line of the grammar",
        ))
}

fn profile<'a>(alloc: Global) -> Result<Command<'a>, AllocError> {
    let profile = Command::new(alloc, "profile")
        .about("Prints how often a parse calls each rule, or what texts use of a grammar")
        .after_help(PROFILE_NOTES)
        .arg(grammar_file(alloc))?
        .arg(profiled_files(alloc)?)?
        .arg(flag(
            alloc,
            "coverage",
            "Prints the rules and alternatives that none of the texts uses",
        ))?
        .arg(prefix_flag(alloc)?)?
        .arg(start_option(alloc))?
        .arg(profile_memo_option(alloc))?
        .arg(steps_option(alloc).default_value("1000000000"))?;
    with_covered_record_options(alloc, profile)
}

// Adds the options for the coverage of records.
fn with_covered_record_options<'a>(
    alloc: Global,
    profile: Command<'a>,
) -> Result<Command<'a>, AllocError> {
    profile
        .arg(covered_lines_flag(alloc)?)?
        .arg(record_null_flag(alloc)?)?
        .arg(crlf_flag(alloc)?)
}

fn explain<'a>(alloc: Global) -> Result<Command<'a>, AllocError> {
    let explain = Command::new(alloc, "explain")
        .about(
            "Prints where texts don't match a grammar, or why the grammar is refused, for people",
        )
        .after_help(EXPLAIN_NOTES)
        .arg(grammar_file(alloc))?
        .arg(text_files(alloc))?
        .arg(text_option(
            alloc,
            "files-from",
            "FILE",
            "A file that lists further files, one name a line; - is standard input",
        ))?
        .arg(null_flag(alloc)?)?
        .arg(start_option(alloc))?
        .arg(memo_option(alloc).default_value(DEFAULT_MEMO))?
        .arg(optional_steps_option(alloc))?
        .arg(flag(alloc, "rules", "Writes the rule of each expected item"))?
        .arg(flag(
            alloc,
            "terminals",
            "Writes each class and dot as in the grammar, not the name of its rule",
        ))?
        .arg(flag(
            alloc,
            "quiet",
            "Prints nothing; the exit status alone says the result",
        ))?;
    with_explained_records(alloc, explain)
}

// Adds the options of `explain` for records.
fn with_explained_records<'a>(
    alloc: Global,
    explain: Command<'a>,
) -> Result<Command<'a>, AllocError> {
    let lines = flag(
        alloc,
        "lines",
        "Explains each record of the texts, or of standard input without texts",
    )
    .conflicts_with("files-from")?;
    explain
        .arg(lines)?
        .arg(crlf_flag(alloc)?)?
        .arg(max_errors_option(alloc)?)
}

fn test<'a>(alloc: Global) -> Result<Command<'a>, AllocError> {
    Command::new(alloc, "test")
        .about(
            "Prints which texts in folders don't match, or match, though their names say otherwise",
        )
        .after_help(TEST_NOTES)
        .arg(grammar_file(alloc))?
        .arg(folders(alloc))?
        .arg(start_option(alloc))?
        .arg(memo_option(alloc).default_value(DEFAULT_MEMO))?
        .arg(optional_steps_option(alloc))
}

fn parse<'a>(alloc: Global) -> Result<Command<'a>, AllocError> {
    let parse = Command::new(alloc, "parse")
        .about("Parses a text and prints its tree and the furthest failure")
        .after_help(PARSE_NOTES)
        .arg(grammar_file(alloc))?
        .arg(parsed_files(alloc)?)?
        .arg(start_option(alloc))?
        .arg(memo_option(alloc).default_value(DEFAULT_MEMO))?
        .arg(optional_steps_option(alloc))?
        .arg(flag(
            alloc,
            "all",
            "Requires that the whole text is consumed; a shorter match is partial, status 1",
        ))?
        .arg(flag(
            alloc,
            "rows",
            "Prints the tree as a list of nodes [level, rule, start, end], of any depth",
        ))?
        .arg(no_tree_flag(alloc)?)?
        .arg(text_option(
            alloc,
            "show",
            "LIST",
            "Prints only the root and the nodes of these rules, as Name,Name",
        ))?
        .arg(hide_option(alloc)?)?
        .arg(text_flag(alloc)?)?;
    with_record_options(alloc, parse)
}

// Adds the options for records.
fn with_record_options<'a>(alloc: Global, parse: Command<'a>) -> Result<Command<'a>, AllocError> {
    parse
        .arg(flag(
            alloc,
            "lines",
            "Parses each record of the texts, or of standard input without texts",
        ))?
        .arg(record_null_flag(alloc)?)?
        .arg(crlf_flag(alloc)?)?
        .arg(failed_flag(alloc)?)?
        .arg(matched_flag(alloc)?)
}

fn grammar_file<'a>(alloc: Global) -> Arg<'a> {
    Arg::new(alloc, "G").help("The grammar file").required(true)
}

// One file, or any number under `--lines`, before, between and after options.
fn parsed_files<'a>(alloc: Global) -> Result<Arg<'a>, AllocError> {
    Arg::new(alloc, "T")
        .num_args(1..)
        .help("The file to parse, or any number of files with --lines")
        .required_unless_present("lines")
}

// One file, several under `--coverage`, or any number under `--lines`, before, between and after options.
fn profiled_files<'a>(alloc: Global) -> Result<Arg<'a>, AllocError> {
    Arg::new(alloc, "T")
        .num_args(1..)
        .help("The file to parse, or several with --coverage, any number with --lines")
        .required_unless_present("lines")
}

// Any number of files, before, between and after options.
fn text_files<'a>(alloc: Global) -> Arg<'a> {
    Arg::new(alloc, "T")
        .num_args(0..)
        .help("The files to explain")
}

// One folder or more, before, between and after options.
fn folders<'a>(alloc: Global) -> Arg<'a> {
    Arg::new(alloc, "FOLDER")
        .num_args(1..)
        .help("The folders of texts")
        .required(true)
}

// An option without a value.
fn flag<'a>(alloc: Global, name: &'a str, help: &'a str) -> Arg<'a> {
    Arg::new(alloc, name)
        .long(name)
        .action(ArgAction::SetTrue)
        .help(help)
}

// An option with any text as its value. A value may begin with a hyphen, so that such a name is reported as unknown.
fn text_option<'a>(alloc: Global, name: &'a str, value: &'a str, help: &'a str) -> Arg<'a> {
    Arg::new(alloc, name)
        .long(name)
        .value_name(value)
        .allow_hyphen_values(true)
        .help(help)
}

// About the names in a list, or about records: `--lines` conflicts with a list, so that none is required then.
fn null_flag<'a>(alloc: Global) -> Result<Arg<'a>, AllocError> {
    flag(
        alloc,
        "null",
        "Names in the list, or records, end at a zero byte instead of a line end",
    )
    .requires_arg("files-from")
}

// With `--coverage`, what counts as a match.
fn prefix_flag<'a>(alloc: Global) -> Result<Arg<'a>, AllocError> {
    flag(
        alloc,
        "prefix",
        "Counts a text as a match if a prefix of it matches",
    )
    .requires_arg("coverage")
}

// With `--coverage`, that records are covered.
fn covered_lines_flag<'a>(alloc: Global) -> Result<Arg<'a>, AllocError> {
    flag(
        alloc,
        "lines",
        "Takes each record of the texts, or of standard input without texts, as a text",
    )
    .requires_arg("coverage")
}

// The start rule.
fn start_option<'a>(alloc: Global) -> Arg<'a> {
    text_option(
        alloc,
        "start",
        "NAME",
        "The rule to start from [default: the first rule of the file]",
    )
}

fn memo_option<'a>(alloc: Global) -> Arg<'a> {
    Arg::new(alloc, "memo")
        .long("memo")
        .value_name("N")
        .value_parser(value_parser!(u32).range(..=i64::from(MAX_MEMO)))
        .allow_negative_numbers(true)
        .help("The capacity of the memo, in entries, 0 to 1000000")
}

// The default depends on `--coverage`, so `profile_of` and `coverage_of` have it.
fn profile_memo_option<'a>(alloc: Global) -> Arg<'a> {
    memo_option(alloc).help(
        "The capacity of the memo, in entries, 0 to 1000000 [default: 0, with --coverage 4096]",
    )
}

fn steps_option<'a>(alloc: Global) -> Arg<'a> {
    Arg::new(alloc, "steps")
        .long("steps")
        .value_name("N")
        .value_parser(value_parser!(u64).range(1..=MAX_LIMIT as i64))
        .allow_negative_numbers(true)
        .help("The maximum number of steps, 1 to 1000000000000")
}

fn optional_steps_option<'a>(alloc: Global) -> Arg<'a> {
    steps_option(alloc).help("The maximum number of steps, 1 to 1000000000000 [default: no limit]")
}

// About the messages of records.
fn max_errors_option<'a>(alloc: Global) -> Result<Arg<'a>, AllocError> {
    Arg::new(alloc, "max-errors")
        .long("max-errors")
        .value_name("N")
        .value_parser(value_parser!(u64).range(1..=MAX_LIMIT as i64))
        .allow_negative_numbers(true)
        .help("The maximum number of messages for the records of a text [default: no limit]")
        .requires_arg("lines")
}

fn no_tree_flag<'a>(alloc: Global) -> Result<Arg<'a>, AllocError> {
    flag(
        alloc,
        "no-tree",
        "Prints the result without the tree, of any depth",
    )
    .conflicts_with("rows")
}

fn hide_option<'a>(alloc: Global) -> Result<Arg<'a>, AllocError> {
    text_option(
        alloc,
        "hide",
        "LIST",
        "Prints the root and all nodes but those of these rules, as Name,Name",
    )
    .conflicts_with("show")
}

fn text_flag<'a>(alloc: Global) -> Result<Arg<'a>, AllocError> {
    flag(
        alloc,
        "text",
        "Adds the bytes of each printed node without printed children",
    )
    .conflicts_with("no-tree")
}

fn record_null_flag<'a>(alloc: Global) -> Result<Arg<'a>, AllocError> {
    flag(
        alloc,
        "null",
        "Records end at a zero byte instead of a line end",
    )
    .requires_arg("lines")
}

fn crlf_flag<'a>(alloc: Global) -> Result<Arg<'a>, AllocError> {
    flag(
        alloc,
        "crlf",
        "Leaves a CR before a line end out of the record",
    )
    .requires_arg("lines")?
    .conflicts_with("null")
}

fn failed_flag<'a>(alloc: Global) -> Result<Arg<'a>, AllocError> {
    flag(alloc, "failed", "Prints only records that don't match").requires_arg("lines")
}

fn matched_flag<'a>(alloc: Global) -> Result<Arg<'a>, AllocError> {
    flag(alloc, "matched", "Prints only records that match")
        .requires_arg("lines")?
        .conflicts_with("failed")
}

// The text after the program's help.
const PROGRAM_NOTES: &str = "\
Without arguments, pegtool reads standard input: a grammar file, a line `%%` and
a text. It parses the text by the grammar's first rule.

A run with an answer or a refusal prints one line of JSON; `explain`, `test` and
`lint --human` print messages for people instead. The exit status is:
  0  success: matched, accepted, printed, no warnings, all used, or help
  1  no match, a partial match under --all, a text of `explain` that doesn't
     match, a test that fails, warnings of `lint`, or something unused under
     --coverage
  2  the grammar is refused
  3  wrong arguments, or an unknown rule
  4  a file can't be opened or read, or the output can't be written
  5  out of memory
  6  TooDeep, TextTooLong, StepLimit or CoverageTooLarge (see the help of `parse`
     and `profile`)

Example: pegtool parse grammar.peg text

The notation beyond Ford's: any byte may be written as `\\xHH`, two hexadecimal
digits, in literals and classes. `e{2}` is `e` twice, and `e{2,4}` two to four
times. With a comma, both numbers are required; none is greater than 255.

Two traps: `[a-]` isn't closed, as `-]` makes the bracket the end of a range;
write `[-a]`. The greatest octal escape is `\\277`: `\\377` is `\\37` and a `7`.";

// The text after the help of `check`.
const CHECK_NOTES: &str = "\
Prints one line of JSON: the grammar is accepted, or the reason why it is refused.
Reasons are a syntax error, a name that is missing or defined twice, a star or
plus whose part can match the empty string, left recursion, and a grammar that is
too large.

Status: 0 accepted; 2 refused; 3 wrong arguments; 4 a file can't be opened or
read, or the output can't be written; 5 out of memory.

Example: pegtool check grammar.peg";

// The text after the help of `table`.
const TABLE_NOTES: &str = "\
Prints one line of JSON with an entry for each rule, in order. The grammar need
not be well-formed.

Status: 0 printed; 2 the grammar is refused; 3 wrong arguments; 4 a file can't be
opened or read, or the output can't be written; 5 out of memory.

Example: pegtool table grammar.peg";

// The text after the help of `code`.
const CODE_NOTES: &str = "\
Prints one line of JSON: the instructions in order, each as a list of its name and
its arguments, and the address of each rule's code. The code of a grammar has at
most 1000000 instructions.

Status: 0 printed; 2 the grammar is refused; 3 wrong arguments; 4 a file can't be
opened or read, or the output can't be written; 5 out of memory.

Example: pegtool code grammar.peg";

// The text after the help of `lint`.
const LINT_NOTES: &str = "\
Prints one line of JSON: the warnings in the order of the file, each with its kind,
its rule, its span, and the line and column where it starts. A warning that has
\"proved\":true is true of every text: an alternative is never tried, an expression
never matches, an operator has no effect, and others. The others are about habits
of other notations, such as a class that begins with a caret.

With --human, prints messages for people instead, in the form of `explain`: what
each warning says and how to write the part, its line of the grammar, and a caret
below its start. The last line names the rules that count as spacing, if any do.

Status: 0 no warnings; 1 warnings; 2 the grammar is refused; 3 wrong arguments, or
an unknown start rule; 4 a file can't be opened or read, or the output can't be
written; 5 out of memory.

Example: pegtool lint grammar.peg --start Value";

// The text after the help of `profile`.
const PROFILE_NOTES: &str = "\
Prints one line of JSON: for each rule, in order, the number of its calls, the
number of different positions of these calls, and how many calls were made again
at a position. A memo can save the work of calls that are made again.

The calls are those of a run with this memo; without one they show what the
grammar asks for by itself. The positions don't depend on the memo. \"consumed\"
is there if the parse matched, and \"steps\" is the number of instructions.

With --coverage, each text is parsed, and the line has the rules and alternatives
that match in none of them, predicates included. Each has its place in the grammar
file; \"tried\" says whether a text tries it. This says what these texts show, not
what can happen. \"matched\" counts the texts that match as a whole, or with --prefix
those of which a prefix matches. A text whose parse takes more steps than --steps
allows uses nothing; \"stopped\" counts these texts, and standard error names them.

With --lines, each record of the texts is a text of its own. A record ends at LF; the
last one may lack its end. Texts may have any length. Standard error names a stopped
record by its number, from 1 on through all texts.

Status: 0 matched, or everything is used; 1 failed, or something is unused; 2 the
grammar is refused; 3 wrong arguments, or an unknown rule; 4 a file can't be opened
or read, or the output can't be written; 5 out of memory; 6 the parse of a text was
stopped, TextTooLong or CoverageTooLarge.

Example: pegtool profile grammar.peg text";

// The text after the help of `explain`.
const EXPLAIN_NOTES: &str = "\
For each text that doesn't match as a whole, prints a message, the line of the text
and a caret below the column. Nothing is printed for a text that matches. A message
has this form:

  FILE:LINE:COLUMN: expected A, B or C, found 'x'

The position is the furthest failure outside predicates, where a predicate fails at
its own start. Columns count bytes from 1. A class or dot is written as the name of
its rule if it failed in a call of the rule that starts at the position. Without
texts, only the grammar is checked. A refused grammar has a message with its place
and cause.

With --lines, each record of the texts is a text of its own. A record ends at LF; the
last one may lack its end. LINE is the record's line in its file. Texts may have any
length. Without texts the records are those of standard input, which is the FILE of
their messages. Messages are printed at the end of each block that is read. With
--max-errors, only the first N messages of a text are printed; the exit status is
still that of all records.

Status: 0 all texts match; 1 some text doesn't; 2 the grammar is refused; 3 wrong
arguments, or an unknown rule; 4 a file can't be opened or read (standard error
names it, and the other files are still read), or the output can't be written; 5 out
of memory; 6 a text is too long, or --steps is too small for it.

Example: pegtool explain grammar.peg *.txt";

// The text after the help of `test`.
const TEST_NOTES: &str = "\
Parses the texts in the folders. A text whose name begins with `match` has to match
as a whole, and one whose name begins with `no_match` not. For each that doesn't, a
message is printed as by `explain`, and then a line with the counts:

  3 passed, 1 failed, 0 ignored

Files with other names, and those whose names end in `.rows`, are ignored. The files
of a folder are tested in the order of their names' bytes. Folders inside a folder
aren't entered.

Status: 0 no test failed; 1 a test failed; 2 the grammar is refused; 3 wrong
arguments, or an unknown rule; 4 a folder or a file can't be read (standard error
names it, and the others are still read), or the output can't be written; 5 out of
memory; 6 a text is too long, or --steps is too small for it.

Example: pegtool test grammar.peg tests";

// The text after the help of `parse`.
const PARSE_NOTES: &str = "\
Prints one line of JSON: the number of bytes consumed, the tree, and the furthest
offset at which a terminal failed, with the spans of these terminals in the
grammar file. A text has at most 67108864 bytes. A tree of more than 60 levels
needs --rows or --no-tree.

--show and --hide list rules, with commas between their names. The children of an
omitted node take its place, and levels are counted without it. A name that no
rule has is refused: NoSuchRule, status 3.

With --text, a printed node without printed children has its bytes: the member
\"text\", or a fifth item of a row. Bytes that aren't UTF-8 are \"bytes\", as
hexadecimal digits.

A memo stores the results of rules at positions, so that a rule that is tried
again at a position isn't run again. It never changes the answer, only time and
memory. A parse runs without the memo first; only if that takes many steps for
the length of the text, it starts again with the memo. --memo 0 never uses it, and
may take time that is exponential in the length of the text.

A step is one instruction of the grammar's code. With --steps N, a parse that
takes more than N steps ends with the refusal StepLimit. The number of steps
depends on the memo.

With --lines, each record of the texts is a text of its own and gives its line, in
order. The member \"record\" is its number from 1, and positions are within the
record. A record ends at LF; the last one may lack its end. Texts may have any
length, and a refused record doesn't stop the others. Lines are printed at the end
of each block that is read. The status is that of the worst record: 6, 1 or 0.

Status: 0 matched; 1 failed, or partial under --all; 2 the grammar is refused; 3
wrong arguments, or an unknown rule; 4 a file can't be opened or read, or the
output can't be written; 5 out of memory; 6 a refusal of the parse is printed:
TooDeep, the tree has more than 60 levels and needs --rows or --no-tree;
TextTooLong; or StepLimit, which needs a greater --steps or --memo.

Example: pegtool parse grammar.peg text --start Value --all --rows";
