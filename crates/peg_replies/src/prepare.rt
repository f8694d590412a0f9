//! What is known of a grammar file before records are parsed by it.
ghost use Rattle.std.specs.Prelude.{◌≡◌, ◌≤◌, ◌↔◌, List, IfOk, IfSome, IsErrOf, None, false, is_some, length, true, ℕ};
ghost use Rattle.peg_bytes.specs.Place.{max_offset};
ghost use Rattle.peg_parser.specs.Accepts.{Accepts};
ghost use Rattle.peg_parser.specs.Parser.{parser_rules, start_named};
ghost use Rattle.peg_replies.specs.RecordParsers.{IsPreparedFor, IsUnknownName};
ghost use Rattle.peg_semantics.specs.Starts.{start_name};

use crate::loading::{Loaded, load};
use crate::parse::printed_rules;
use crate::record_parser::RecordParser;
use crate::tree_printing::TreePrinting;
use peg_io::{ReadFault, Source, read_up_to};
use peg_json::{Line, no_rule_line, no_start_line};
use peg_notation::MAX_FILE_BYTES;
use peg_parser::{ParseOptions, Parser};
use std::alloc::{AllocError, Global};

/// What is known of a grammar file before a record is read.
#[derive(Drop)]
pub enum Prepared<'a> {
    /// Records can be parsed.
    Ready(RecordParser<'a>),
    /// The line that reports why no record is parsed.
    Refused(Line),
}

/// Reads a grammar file for a parse of records, and at most 1,048,577 bytes of it. A line reports a refused file, and a
/// listed name or a start that no rule has. Returns `Device` if a read fails, and `Memory` if an allocation fails.
pub fn prepare_records<'a, G: Source>(
    alloc: Global,
    grammar: &mut G,
    options: ParseOptions<'a>,
    printing: TreePrinting<'a>,
) -> Result<Prepared<'a>, ReadFault>
    requires { G.failed grammar.old ≡ false }
    ensures prepared { IfSome (G.left grammar.old) (λ file.
        IfOk result (IsPreparedFor file options.entry printing.entry)) }
    ensures device { IsErrOf result ReadFault.Device ↔ (G.failed grammar.new ≡ true) }
    ensures never { G.never_fails grammar.old ≡ true → G.failed grammar.new ≡ false }
{
    let file = read_up_to(alloc, grammar, MAX_FILE_BYTES + 1)?;
    Ok(prepare_by_file(alloc, &file, options, printing)?)
}

// What is known of a grammar file with these bytes.
fn prepare_by_file<'a>(
    alloc: Global,
    file: &[u8],
    options: ParseOptions<'a>,
    printing: TreePrinting<'a>,
) -> Result<Prepared<'a>, AllocError>
    requires { length file.now ≤ max_offset }
    ensures { IfOk result (IsPreparedFor file.now options.entry printing.entry) }
{
    let parser = match load(alloc, file)? {
        Loaded::Accepted(parser) => parser,
        Loaded::Refused(line) => return Ok(Prepared::Refused(line)),
    };
    match unknown_name(alloc, &parser, &options, printing)? {
        Some(line) => Ok(Prepared::Refused(line)),
        None => ready(alloc, file, parser, options, printing),
    }
}

// The line that reports a name that no rule has.
fn unknown_name(
    alloc: Global,
    parser: &Parser,
    options: &ParseOptions<'_>,
    printing: TreePrinting<'_>,
) -> Result<Option<Line>, AllocError>
    ensures { (file : List ℕ) → Accepts file (parser_rules parser.now)
        → IfOk result (IsUnknownName file (parser_rules parser.now) options.now printing.entry) }
{
    if let Some(name) = printing.nodes.first_unknown(parser.grammar()) {
        return Ok(Some(no_rule_line(alloc, name)?));
    }
    if has_start(parser, options) {
        return Ok(None);
    }
    Ok(Some(no_start_line(alloc, options.start.unwrap_or(""))?))
}

// The parsers of a grammar file that has this parser. The file is read once more for the one that parses.
fn ready<'a>(
    alloc: Global,
    file: &[u8],
    parser: Parser,
    options: ParseOptions<'a>,
    printing: TreePrinting<'a>,
) -> Result<Prepared<'a>, AllocError>
    requires accepts { Accepts file.now (parser_rules parser) }
    requires known { IsUnknownName file.now (parser_rules parser) options printing None }
    ensures { IfOk result (IsPreparedFor file.now options.entry printing.entry) }
{
    // The file is accepted, so that the only error is a failed allocation.
    let Ok(other) = Parser::from_file(alloc, file) else {
        return Err(AllocError);
    };
    let set = printed_rules(alloc, other.grammar(), printing)?;
    let shown = other.showing(set);
    Ok(Prepared::Ready(RecordParser {
        parser,
        shown,
        options,
        printing,
    }))
}

// Whether the start is a rule.
fn has_start(parser: &Parser, options: &ParseOptions<'_>) -> bool
    ensures { result ≡ is_some (start_name (parser_rules parser.now) (start_named options.now)) }
{
    match options.start {
        None => true,
        Some(name) => parser.grammar().rule_number(name).is_some(),
    }
}
