//! What is known of a grammar file before records are covered.
ghost use Rattle.std.specs.Prelude.{◌≡◌, ◌≤◌, ◌↔◌, ℕ, IfOk, IfSome, IsErrOf, List, false, true, vec_len};
ghost use Rattle.peg_bytes.specs.Place.{max_offset};
ghost use Rattle.peg_coverage.specs.CoverageFaults.{IsCoverageRefusal};
ghost use Rattle.peg_parser.specs.Accepts.{Accepts};
ghost use Rattle.peg_parser.specs.Parser.{parser_rules};
ghost use Rattle.peg_semantics.specs.Rules.{Rule};
ghost use Rattle.peg_tool.specs.PreparedCoverages.{AreParsers, IsPreparedCoverage};

use peg_coverage::{CoverageFault, CoverageParser};
use peg_io::{ReadFault, Source, read_up_to};
use peg_json::{Line, no_coverage_line, refused_line};
use peg_notation::MAX_FILE_BYTES;
use peg_parser::{Parser, Refusal};
use std::alloc::{AllocError, Global};

/// A grammar file that is accepted, its parser, and its parser of coverage.
#[derive(Drop)]
pub(crate) struct CoverGrammar {
    pub(crate) file: Vec<u8>,
    pub(crate) parser: Parser,
    pub(crate) coverage: CoverageParser,
}

/// What is known of a grammar file before a record is read.
#[derive(Drop)]
pub(crate) enum PreparedCoverage {
    /// Records can be covered.
    Ready(CoverGrammar),
    /// The line that reports why no record is covered.
    Refused(Line),
}

/// Reads a grammar file for a coverage of records, and at most 1,048,577 bytes of it. A line reports a refused file, or
/// a marked grammar that is over a limit. Returns `Device` if a read fails, and `Memory` if an allocation fails.
pub(crate) fn prepare_coverage<G: Source>(
    alloc: Global,
    grammar: &mut G,
) -> Result<PreparedCoverage, ReadFault>
    requires { G.failed grammar.old ≡ false }
    ensures prepared { IfSome (G.left grammar.old) (λ file. IfOk result (IsPreparedCoverage file)) }
    ensures parsers { IfOk result AreParsers }
    ensures device { IsErrOf result ReadFault.Device ↔ (G.failed grammar.new ≡ true) }
    ensures never { G.never_fails grammar.old ≡ true → G.failed grammar.new ≡ false }
{
    let file = read_up_to(alloc, grammar, MAX_FILE_BYTES + 1)?;
    Ok(prepare_by_file(alloc, file)?)
}

// What is known of a grammar file with these bytes.
fn prepare_by_file(alloc: Global, file: Vec<u8>) -> Result<PreparedCoverage, AllocError>
    requires { vec_len file ≤ max_offset }
    ensures prepared { IfOk result (IsPreparedCoverage file.items) }
    ensures parsers { IfOk result AreParsers }
{
    let bytes = file.as_slice();
    match Parser::from_file(alloc, bytes) {
        Ok(parser) => prepare_by_parser(alloc, file, parser),
        Err(Refusal::Memory) => Err(AllocError),
        Err(refusal) => {
            let line = refused_line(alloc, bytes, &refusal)?;
            Ok(PreparedCoverage::Refused(line))
        }
    }
}

// What is known of a grammar file that has this parser.
fn prepare_by_parser(
    alloc: Global,
    file: Vec<u8>,
    parser: Parser,
) -> Result<PreparedCoverage, AllocError>
    requires { Accepts file.items (parser_rules parser) }
    ensures prepared { IfOk result (IsPreparedCoverage file.items) }
    ensures parsers { IfOk result AreParsers }
{
    match CoverageParser::new(alloc, &parser) {
        Ok(coverage) => Ok(PreparedCoverage::Ready(CoverGrammar {
            file,
            parser,
            coverage,
        })),
        Err(why) => without_coverage(alloc, why),
    }
}

// The line that reports that there is no parser of coverage, unless an allocation failed.
fn without_coverage(alloc: Global, why: CoverageFault) -> Result<PreparedCoverage, AllocError>
    ensures prepared { (file : List ℕ) (rules : List Rule) → Accepts file rules → IsCoverageRefusal rules why
        → IfOk result (IsPreparedCoverage file) }
    ensures parsers { IfOk result AreParsers }
{
    match why {
        CoverageFault::Memory => Err(AllocError),
        _ => {
            let line = no_coverage_line(alloc)?;
            Ok(PreparedCoverage::Refused(line))
        }
    }
}
