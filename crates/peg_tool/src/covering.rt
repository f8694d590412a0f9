//! What texts use of a grammar: the line, and the lines for standard error.
ghost use Rattle.std.specs.Prelude.{◌≡◌, ◌≢◌, ◌↔◌, ◌<◌, ◌≤◌, ◌++◌, ◌∷◌, ℕ, All, List, [], IfErr, IfOk, IfSome, IsErrOf, false, length};
ghost use Rattle.std.specs.Prelude.{OnOk, codes, map, string_bytes, true};
ghost use Rattle.peg_bytes.specs.Place.{max_offset};
ghost use Rattle.peg_coverage.specs.CoverageParser.{IsCoverageParserOf};
ghost use Rattle.peg_coverage.specs.Unused.{alternative_use, rule_use};
ghost use Rattle.peg_coverage.specs.declared.coverage.UnusedRule.{UnusedRule};
ghost use Rattle.peg_coverage_files.specs.NamedTexts.{files_named};
ghost use Rattle.peg_grammar.specs.GrammarRules.{rules_in};
ghost use Rattle.peg_json.specs.CoverageText.{named_use};
ghost use Rattle.peg_json.specs.Lines.{IsReply, line_bytes};
ghost use Rattle.peg_json.specs.Reply.{Covered, NoCoverage};
ghost use Rattle.peg_json.specs.Statuses.{status_code};
ghost use Rattle.peg_messages.specs.FileNames.{shown_name};
ghost use Rattle.peg_parser.specs.Parser.{parser_rules, start_named};
ghost use Rattle.peg_tool.specs.CoverageOutcome.{stopped_line, stopped_lines};
ghost use Rattle.peg_replies.specs.CoverageReplies.{CoversTo};
ghost use Rattle.peg_tool.specs.CoverageWritten.{IsReplyOfKind, IsTextFault, WritesCoverageReply};
ghost use Rattle.peg_tool.specs.Faults.{IsFaultAmong, IsFaultAt, plain_result, standard_output};
ghost use Rattle.peg_replies.specs.Replies.{RepliesTo};
ghost use Rattle.peg_replies.specs.Task.{CoverTask};

use crate::fault::{RequestFault, Stream};
use crate::program::ProgramFault;
use crate::report::Findings;
use peg_coverage::{Coverage, CoverageFault, CoverageParser, RequiredMatch};
use peg_coverage_files::{CoveringFault, cover_files};
use peg_grammar::Grammar;
use peg_io::{Opener, ReadFault, Sink, Source, read_up_to};
use peg_json::{
    Line, coverage_line, long_text_line, no_coverage_line, no_start_line, refused_line,
};
use peg_messages::shown_name;
use peg_notation::MAX_FILE_BYTES;
use peg_parser::{ParseOptions, Parser, Refusal};
use peg_replies::write_line;
use std::alloc::{AllocError, Global};

/// What is printed of what texts use.
#[derive(Drop)]
pub(crate) struct CoverageReply {
    /// The line for the output.
    pub(crate) line: Line,
    /// A line for each stopped text, for standard error.
    pub(crate) faults: String,
}

/// Reads the grammar file with name `g` and returns what is printed of what the texts with these names use of it, or the
/// line that reports why there is nothing. The texts are opened one after the other, if the file is accepted.
pub(crate) fn coverage_reply<'a, O: Opener, G: Source>(
    alloc: Global,
    files: &O,
    grammar: &mut G,
    g: &'a str,
    names: &'a [String],
    options: &ParseOptions<'_>,
    needed: RequiredMatch,
) -> Result<CoverageReply, RequestFault<'a>>
    requires { G.failed grammar.old ≡ false }
    ensures answer { IfSome (G.left grammar.old) (λ file. (text : List ℕ) → IfOk result (IsReplyOfKind
        (RepliesTo file text (CoverTask (files_named (O.file_at files.now) names.now) (start_named options.now)
        options.now.memo options.now.steps needed)) (map string_bytes names.now) file)) }
    ensures fault { G.failed grammar.new ≡ false
        → IfErr result (IsTextFault (O.file_at files.now) (map string_bytes names.now)) }
    ensures named { IfErr result
        (IsFaultAmong (shown_name g.now ∷ map shown_name (map string_bytes names.now) ++ standard_output ∷ [])) }
    ensures never { G.never_fails grammar.old ≡ true → G.failed grammar.new ≡ false }
{
    match read_up_to(alloc, grammar, MAX_FILE_BYTES + 1) {
        Ok(file) => cover_by_file(alloc, files, &file, names, options, needed),
        Err(ReadFault::Device) => Err(RequestFault::at(Stream::File(g), grammar.fault_kind())),
        Err(ReadFault::Memory) => Err(RequestFault::Memory),
    }
}

// What is printed of what texts use of a grammar file, or the line that reports why there is nothing.
fn cover_by_file<'a, O: Opener>(
    alloc: Global,
    files: &O,
    file: &[u8],
    names: &'a [String],
    options: &ParseOptions<'_>,
    needed: RequiredMatch,
) -> Result<CoverageReply, RequestFault<'a>>
    requires { length file.now ≤ max_offset }
    ensures answer { (text : List ℕ) → IfOk result (IsReplyOfKind
        (RepliesTo file.now text (CoverTask (files_named (O.file_at files.now) names.now) (start_named options.now)
        options.now.memo options.now.steps needed)) (map string_bytes names.now) file.now) }
    ensures fault { IfErr result (IsTextFault (O.file_at files.now) (map string_bytes names.now)) }
{
    match Parser::from_file(alloc, file) {
        Ok(parser) => cover_by_grammar(alloc, files, file, &parser, names, options, needed),
        Err(Refusal::Memory) => Err(RequestFault::Memory),
        Err(refusal) => {
            let line = refused_line(alloc, file, &refusal)?;
            Ok(line_alone(alloc, line))
        }
    }
}

/// Returns a line for the output, and nothing for standard error.
pub(crate) fn line_alone(alloc: Global, line: Line) -> CoverageReply
    ensures line { result.line ≡ line }
    ensures faults { string_bytes result.faults ≡ [] }
{
    CoverageReply {
        line,
        faults: String::new(alloc),
    }
}

// What is printed of what texts use of a grammar, or the line that reports that its marked grammar is over a limit.
fn cover_by_grammar<'a, O: Opener>(
    alloc: Global,
    files: &O,
    file: &[u8],
    parser: &Parser,
    names: &'a [String],
    options: &ParseOptions<'_>,
    needed: RequiredMatch,
) -> Result<CoverageReply, RequestFault<'a>>
    ensures answer { IfOk result (IsReplyOfKind
        (CoversTo (parser_rules parser.now) (files_named (O.file_at files.now) names.now) (start_named options.now)
        options.now.memo options.now.steps needed) (map string_bytes names.now) file.now) }
    ensures fault { IfErr result (IsTextFault (O.file_at files.now) (map string_bytes names.now)) }
{
    match CoverageParser::new(alloc, parser) {
        Ok(coverage) => {
            let grammar = parser.grammar();
            cover_by_parser(
                alloc, files, file, grammar, &coverage, names, options, needed,
            )
        }
        Err(why) => no_coverage(alloc, why),
    }
}

// The line that reports that there is no parser of coverage, unless an allocation failed.
fn no_coverage<'a>(alloc: Global, why: CoverageFault) -> Result<CoverageReply, RequestFault<'a>>
    ensures line { IfOk result (λ reply. (why ≢ CoverageFault.Memory) × (string_bytes reply.faults ≡ [])
        × ((file : List ℕ) → IsReply file NoCoverage (line_bytes reply.line) (status_code reply.line.status))) }
    ensures fault { IfErr result (λ fault. fault ≡ RequestFault.Memory) }
{
    match why {
        CoverageFault::Memory => Err(RequestFault::Memory),
        _ => {
            let line = no_coverage_line(alloc)?;
            Ok(line_alone(alloc, line))
        }
    }
}

// What is printed of what texts use of a grammar that has this parser of coverage.
fn cover_by_parser<'a, O: Opener>(
    alloc: Global,
    files: &O,
    file: &[u8],
    grammar: &Grammar,
    parser: &CoverageParser,
    names: &'a [String],
    options: &ParseOptions<'_>,
    needed: RequiredMatch,
) -> Result<CoverageReply, RequestFault<'a>>
    requires { IsCoverageParserOf (rules_in grammar.now) parser.now }
    ensures answer { IfOk result (IsReplyOfKind
        (CoversTo (rules_in grammar.now) (files_named (O.file_at files.now) names.now) (start_named options.now)
        options.now.memo options.now.steps needed) (map string_bytes names.now) file.now) }
    ensures fault { IfErr result (IsTextFault (O.file_at files.now) (map string_bytes names.now)) }
{
    match cover_files(alloc, files, parser, names, options, needed) {
        Ok(coverage) => Ok(covered_reply(alloc, file, grammar, names, &coverage)?),
        // A grammar has a first rule, so a start that is missing was given by name.
        Err(CoveringFault::NoSuchStart) => {
            let line = no_start_line(alloc, options.start.unwrap_or(""))?;
            Ok(line_alone(alloc, line))
        }
        Err(CoveringFault::TextTooLong) => {
            let line = long_text_line(alloc)?;
            Ok(line_alone(alloc, line))
        }
        Err(CoveringFault::File { name, kind }) => Err(RequestFault::Device {
            stream: Stream::File(name),
            kind,
        }),
        Err(CoveringFault::Input) => unreachable!(),
        Err(CoveringFault::Memory) => Err(RequestFault::Memory),
    }
}

// The line of what texts with these names use, and a line for each stopped text.
fn covered_reply(
    alloc: Global,
    file: &[u8],
    grammar: &Grammar,
    names: &[String],
    coverage: &Coverage,
) -> Result<CoverageReply, AllocError>
    requires rules { All (λ (unused : UnusedRule). unused.rule < length (rules_in grammar.now))
        coverage.now.unused_rules.items }
    requires texts { All (λ number. number < length names.now) coverage.now.stopped.items }
    ensures { let reply = Covered coverage.now.texts coverage.now.matched coverage.now.stopped.items
        (map (named_use (rules_in grammar.now)) (map rule_use coverage.now.unused_rules.items))
        (map alternative_use coverage.now.unused_alternatives.items) in
        IfOk result (IsReplyOfKind (λ other. other ≡ reply) (map string_bytes names.now) file.now) }
{
    let line = coverage_line(alloc, file, grammar, coverage)?;
    let faults = stopped_text_lines(alloc, names, &coverage.stopped)?;
    Ok(CoverageReply { line, faults })
}

// A line for each of the texts with these numbers, in order.
fn stopped_text_lines(
    alloc: Global,
    names: &[String],
    stopped: &[usize],
) -> Result<String, AllocError>
    requires { All (λ number. number < length names.now) stopped.now }
    ensures { IfOk result (λ lines.
        string_bytes lines ≡ stopped_lines (map string_bytes names.now) stopped.now) }
{
    let mut lines = String::new(alloc);
    'stopped: for number in stopped {
        push_stopped_line(alloc, &names[*number], &mut lines)?;
    }
    Ok(lines)
}

/// Appends the line for the stopped text with this name.
pub(crate) fn push_stopped_line(
    alloc: Global,
    name: &str,
    lines: &mut String,
) -> Result<(), AllocError>
    ensures { OnOk result (string_bytes lines.new ≡ string_bytes lines.old ++ stopped_line name.now) }
{
    let shown = shown_name(alloc, name.as_bytes())?;
    lines.push_str("pegtool: ")?;
    lines.push_str(&shown)?;
    lines.push_str(": the parse takes more steps than --steps allows\n")
}

/// Writes the line of what texts use, and returns its exit status and the lines for standard error.
pub(crate) fn write_coverage<'a, W: Sink>(
    output: &mut W,
    reply: CoverageReply,
) -> Result<Findings, RequestFault<'a>>
    requires { W.failed output.old ≡ false }
    ensures writes { WritesCoverageReply reply (W.written output.old) (W.written output.new) (plain_result result) }
    ensures fault { IsErrOf (plain_result result) ProgramFault.File ↔ (W.failed output.new ≡ true) }
    ensures named { IfErr result (IsFaultAt standard_output (W.fault_kind output.new)) }
{
    let CoverageReply { line, faults } = reply;
    match write_line(output, line) {
        Ok(status) => Ok(Findings { status, faults }),
        Err(_) => Err(RequestFault::at(Stream::Output, output.fault_kind())),
    }
}
