//! Covers texts that are read by name.
ghost use Rattle.std.specs.Prelude.{◌≡◌, ◌↔◌, ℕ, All, Bool, List, [], IfErr, IfOk, IsErrOf, None, OnOk, Some, length, map, string_bytes};
ghost use Rattle.peg_io.specs.NamedFile.{IsMissing, NamedFile, bytes_of};
ghost use Rattle.peg_parser.specs.Parser.{start_named};
ghost use Rattle.peg_semantics.specs.Rules.{Rule};
ghost use Rattle.peg_semantics.specs.Starts.{start_name};
ghost use Rattle.peg_coverage.specs.Covered.{settings_of};
ghost use Rattle.peg_coverage.specs.CoverageParser.{IsCoverageParserOf, rule_count};
ghost use Rattle.peg_coverage.specs.Unused.{IsCoverageOf};
ghost use Rattle.peg_coverage_files.specs.CoveredTexts.{AddsText, AreCovered};
ghost use Rattle.peg_coverage_files.specs.CoveringFaults.{IsFaultOf, IsFaultOfText, IsParsable};
ghost use Rattle.peg_coverage_files.specs.NamedTexts.{files_named, texts_in};

use crate::covered::CoveredTexts;
use crate::fault::CoveringFault;
use crate::reading::read_text;
use peg_coverage::{Coverage, CoverageParser, RequiredMatch};
use peg_io::Opener;
use peg_parser::ParseOptions;
use std::alloc::Global;

/// Parses the texts with these names, in order, and returns what they use of the grammar that the parser was made for.
///
/// `needed` says how much of a text has to match, for the text to count as a match. What a text tries and what matches
/// in it counts whether the text matches or not.
///
/// A text whose parse takes too many steps is counted as stopped, and uses nothing. The first text that can't be opened
/// or read, or is too long, ends it with that fault. A start that no rule has is reported before any text is opened. At
/// most 67,108,865 bytes of each text are read, and one text is held in memory at a time.
///
/// # Example
///
/// ```
/// let coverage = cover_files(alloc, &files, &parser, &names, &options, RequiredMatch::Whole)?;
/// println!("{} of {} texts match", coverage.matched, coverage.texts);
/// ```
pub fn cover_files<'a, O: Opener>(
    alloc: Global,
    files: &O,
    parser: &CoverageParser,
    names: &'a [String],
    options: &ParseOptions<'_>,
    needed: RequiredMatch,
) -> Result<Coverage, CoveringFault<'a>>
    ensures no_start { (rules : List Rule) → IsCoverageParserOf rules parser.now
        → (IsErrOf result CoveringFault.NoSuchStart ↔ (start_name rules (start_named options.now) ≡ None)) }
    ensures covered { (rules : List Rule) (start : List ℕ) → IsCoverageParserOf rules parser.now
        → start_name rules (start_named options.now) ≡ Some start
        → IfOk result (IsCoverageOf rules start (settings_of options.now) needed
        (texts_in (files_named (O.file_at files.now) names.now))) }
    ensures refused { (rules : List Rule) → IsCoverageParserOf rules parser.now
        → IfErr result (IsFaultOf rules (O.file_at files.now) (map string_bytes names.now) (start_named options.now)) }
    ensures present { OnOk result (All (λ (file : NamedFile). ¬ IsMissing file)
        (files_named (O.file_at files.now) names.now)) }
{
    if !parser.has_start(options) {
        return Err(CoveringFault::NoSuchStart);
    }
    let mut covered = CoveredTexts::new(alloc, parser)?;
    cover_texts(alloc, files, parser, names, options, needed, &mut covered)?;
    Ok(covered.coverage(alloc, parser)?)
}

// Adds what the texts with these names use.
fn cover_texts<'a, O: Opener>(
    alloc: Global,
    files: &O,
    parser: &CoverageParser,
    names: &'a [String],
    options: &ParseOptions<'_>,
    needed: RequiredMatch,
    covered: &mut CoveredTexts,
) -> Result<(), CoveringFault<'a>>
    requires { length covered.old.used ≡ rule_count parser.now }
    ensures covered { (rules : List Rule) (start : List ℕ) (before : List Bool) → IsCoverageParserOf rules parser.now
        → start_name rules (start_named options.now) ≡ Some start
        → AreCovered rules start (settings_of options.now) needed [] before covered.old
        → OnOk result (AreCovered rules start (settings_of options.now) needed
        (texts_in (files_named (O.file_at files.now) names.now)) before covered.new) }
    ensures refused { (rules : List Rule) → IsCoverageParserOf rules parser.now
        → IfErr result (IsFaultOf rules (O.file_at files.now) (map string_bytes names.now) (start_named options.now)) }
    ensures present { OnOk result (All (λ (file : NamedFile). ¬ IsMissing file)
        (files_named (O.file_at files.now) names.now)) }
{
    'names: for name in names {
        cover_text(alloc, files, parser, name, options, needed, covered)?;
    }
    Ok(())
}

// Adds what the text with this name uses.
fn cover_text<'a, O: Opener>(
    alloc: Global,
    files: &O,
    parser: &CoverageParser,
    name: &'a str,
    options: &ParseOptions<'_>,
    needed: RequiredMatch,
    covered: &mut CoveredTexts,
) -> Result<(), CoveringFault<'a>>
    requires { length covered.old.used ≡ rule_count parser.now }
    ensures adds { (rules : List Rule) (start : List ℕ) → IsCoverageParserOf rules parser.now
        → start_name rules (start_named options.now) ≡ Some start
        → OnOk result (AddsText rules start (settings_of options.now) needed (bytes_of (O.file_at files.now name.now))
        covered.old covered.new) }
    ensures size { length covered.new.used ≡ length covered.old.used }
    ensures refused { (rules : List Rule) → IsCoverageParserOf rules parser.now
        → IfErr result (IsFaultOfText rules (O.file_at files.now) name.now (start_named options.now)) }
    ensures present { OnOk result (¬ IsMissing (O.file_at files.now name.now)) }
    ensures parsable { (rules : List Rule) → IsCoverageParserOf rules parser.now
        → OnOk result (IsParsable (O.file_at files.now name.now)) }
{
    let text = read_text(alloc, files, name)?;
    covered.add(alloc, parser, &text, options, needed)
}
